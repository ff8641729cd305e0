//! The rows, and a pass of them.
ghost use Rattle.std.specs.Prelude.{◌≡◌, ◌≤◌, ◌+◌, ◌*◌, [], length, true, vec_capacity};
ghost use mathlib.Core.Option.{some};
ghost use lib.ListN.{get_elem?};
ghost use Rattle.turn_rows.specs.declared.view.Stage.TheVariants.{Idle};

use crate::held::Held;
use crate::view::{Start, View};
use atomic_table::{Seat, Table, TableRule};
use std::alloc::Global;
use std::marker::PhantomData;

/// A row's words have a line of cache of their own, so that rows do not slow each other.
pub(crate) const WORDS_A_ROW: usize = 8;

/// The rule of rows whose states have entries E and a tag T.
pub struct Turns<E, T> {
    of: PhantomData<(E, T)>,
}

impl<E, T, S: Held<Entry = E, Tag = T>> TableRule<S, View<S>, Start<S>> for Turns<E, T> {
    ghost use Rattle.turn_rows.specs.Rule.{RowsHold, meaning};
    ghost use Rattle.turn_rows.specs.Plays.{first_view};

    ghost holds = { λ key. RowsHold (meaning S.entries S.by S.turns S.tag S.mark) key.shared key.states.value.items (S.tag key.one.value) };

    ghost first = { λ key. first_view key.shared key.states.value.items };
}

/// Rows of states of the type S.
pub type Rows<S> = Ruled<S, Turns<<S as Held>::Entry, <S as Held>::Tag>>;

/// Rows under their rule. Name them by `Rows`.
#[derive(Drop)]
pub struct Ruled<S, Q: TableRule<S, View<S>, Start<S>>> {
    pub(crate) table: Table<S, View<S>, Start<S>, Q, Global>,
    // The room for what `close` answers.
    pub(crate) spare: Vec<S>,
    pub(crate) count: usize,
    ghost roomy: { (spare.items ≡ []) × (count ≤ vec_capacity spare) },
    ghost sized: { (count ≡ length table.shared.key.states.value.items) × (table.shared.table_id.words ≡ count * 8 + 1) × (table.shared.table_id.slots ≡ count) × (count ≤ 4096) },
    ghost headed: { get_elem? table.shared.key.states.value.items 0 ≡ some table.shared.key.one.value },
}

/// What one task knows of the rows. Each call on them takes a pass.
#[derive(Drop)]
pub struct RowPass<S> {
    pub(crate) seat: Seat<S, View<S>>,
    pub(crate) number: u32,
    pub(crate) made: u32,
    ghost rests: { (seat.me.1 ≡ []) × (seat.me.0.live ≡ true) × (seat.me.0.stage ≡ Idle) },
    ghost numbered: { (seat.me.0.own.number ≡ number) × (seat.me.0.own.made ≡ made) },
}
