//! The words of all sites, and a pass of them.
ghost use Rattle.std.specs.Prelude.{◌≡◌, ◌*◌, ◌≤◌, ℕ, [], slice_index, max};
ghost use Rattle.call_site.specs.Places.{count_at};

use crate::memo::{Count, Memo};
use atomic_table::{Seat, Table, TableRule};
use std::alloc::Global;

/// The rule of the words: while only one pass was made, they are what it remembers.
pub struct Words;

impl TableRule<u64, Memo, Count> for Words {
    ghost use Rattle.call_site.specs.Rule.{WordsHold, first_memo};

    ghost holds = { λ key. WordsHold key.words };

    ghost first = { λ key. first_memo key.words };
}

/// The call sites of a script, numbered from 0, which all passes share.
#[derive(Drop)]
pub struct Sites {
    pub(crate) table: Table<u64, Memo, Count, Words, Global>,
    pub(crate) count: u32,
    ghost sized: { table.shared.table_id.words ≡ max (count * 12) 1 },
}

/// What one task knows of the sites. Each call on them takes a pass.
#[derive(Drop)]
pub struct SitePass {
    pub(crate) seat: Seat<u64, Memo>,
    ghost rests: { seat.me.1 ≡ [] },
    ghost few: { (site : ℕ) → slice_index seat.me.0.words (count_at site) ≤ seat.me.0.calls },
}
