//! How rows are made, and how their passes are made and joined.
ghost use Rattle.std.specs.Prelude.{◌≡◌, ℕ, ◌+◌, ◌*◌, ◌<◌, ◌≤◌, [], ◌∷◌, ◌++◌, length, slice_index, IfOk};
ghost use Rattle.turn_rows.specs.Rule.{meaning};
ghost use Rattle.turn_rows.specs.Plays.{with_pass};
ghost use Rattle.turn_rows.specs.Passes.{IsPassOf, log_of, logs_of, kept_of, row_count, shared_count, tag_state, AllNew, AllTagged, HaveOneTag, IsFresh};

use crate::held::Held;
use crate::plays::{Cut, Keep, Recall};
use crate::rows::{RowPass, Rows, Ruled, WORDS_A_ROW};
use crate::view::Start;
use atomic_table::Table;
use std::alloc::{AllocError, Global};
use std::snapshot::Snapshot;

impl<S: Held> Rows<S> {
    /// Rows of these states, with their first pass, whose number is 0. Draws begin at `shared`.
    ///
    /// All memory is taken here: `close` takes none. The error is want of memory, and the states are then dropped.
    pub fn new(
        alloc: Global,
        states: Vec<S>,
        shared: u32,
    ) -> Result<(Rows<S>, RowPass<S>), AllocError>
    where
        S: Drop,
        requires some { 0 < length states.items }
        requires rows { length states.items ≤ 4096 }
        requires shared { shared ≤ length states.items }
        requires new { AllNew (meaning S.entries S.by S.turns S.tag S.mark) states.items }
        requires tag { HaveOneTag (meaning S.entries S.by S.turns S.tag S.mark) states.items }
        ensures rows { IfOk result (λ r. row_count r.0 ≡ length states.items) }
        ensures shared { IfOk result (λ r. shared_count r.0 ≡ shared) }
        ensures tag { IfOk result (λ r. AllTagged (meaning S.entries S.by S.turns S.tag S.mark) (tag_state r.0) states.items) }
        ensures own { IfOk result (λ r. IsPassOf r.0 r.1) }
        ensures first { IfOk result (λ r. ((log_of r.1).number ≡ 0) × ((log_of r.1).made ≡ 1) × (kept_of r.1 ≡ [])) }
        ensures fresh { IfOk result (λ r. IsFresh (meaning S.entries S.by S.turns S.tag S.mark) (log_of r.1)) }
    {
        let count = states.len();
        let words = first_words(alloc, count, shared)?;
        let spare = Vec::with_capacity(alloc, count)?;
        let start = Start {
            shared: u64::from(shared),
            one: Snapshot::of(&states[0]),
            states: Snapshot::of(&states),
        };
        let Ok((table, seat)) = Table::new(alloc, words.as_slice(), states, &start) else {
            return Err(AllocError);
        };
        let rows = Ruled {
            table,
            spare,
            count,
        };
        let pass = RowPass {
            seat,
            number: 0,
            made: 1,
        };
        Ok((rows, pass))
    }

    /// One more pass, which has seen, made and drawn nothing; its number is the count of the passes made before it. Only the first pass makes others, and it is otherwise as before. It takes no memory.
    pub fn split(&self, pass: &mut RowPass<S>) -> RowPass<S>
        requires own { IsPassOf self.now pass.old }
        requires first { (log_of pass.old).number ≡ 0 }
        requires few { (log_of pass.old).made < 8 }
        ensures own { IsPassOf self.now pass.new × IsPassOf self.now result }
        ensures counted { (log_of pass.new ≡ with_pass (log_of pass.old)) × (kept_of pass.new ≡ kept_of pass.old) }
        ensures number { (log_of result).number ≡ (log_of pass.old).made }
        ensures other { ((log_of result).made ≡ 0) × (kept_of result ≡ []) }
        ensures fresh { IsFresh (meaning S.entries S.by S.turns S.tag S.mark) (log_of result) }
    {
        let words = &self.table.shared;
        let number = pass.made;
        words.load::<Recall>(&mut pass.seat, self.count * WORDS_A_ROW);
        let seat = words.split_seat::<Cut>(&mut pass.seat);
        pass.made = number + 1;
        RowPass {
            seat,
            number,
            made: 0,
        }
    }

    /// Keeps the log of the other pass, and those that it kept, behind the pass's own, which stays. It takes no memory.
    pub fn join(&self, pass: &mut RowPass<S>, other: RowPass<S>)
        requires own { IsPassOf self.now pass.old × IsPassOf self.now other }
        ensures own { IsPassOf self.now pass.new }
        ensures log { log_of pass.new ≡ log_of pass.old }
        ensures kept { kept_of pass.new ≡ kept_of pass.old ++ logs_of other }
    {
        let RowPass {
            seat,
            number: _,
            made: _,
        } = other;
        self.table.shared.join_seat::<Keep>(&mut pass.seat, seat);
    }
}

/// Each row serves its first ticket, and the draws begin at `shared`.
fn first_words(alloc: Global, count: usize, shared: u32) -> Result<Vec<u64>, AllocError>
    requires { count ≤ 4096 }
    ensures wide { IfOk result (λ w. length w.items ≡ count * 8 + 1) }
    ensures zeros { IfOk result (λ w. (i : ℕ) → i < count * 8 → slice_index w.items i ≡ 0) }
    ensures last { IfOk result (λ w. slice_index w.items (count * 8) ≡ shared) }
{
    let mut words = Vec::from_elem(alloc, 0u64, count * WORDS_A_ROW + 1)?;
    words.as_mut_slice()[count * WORDS_A_ROW] = u64::from(shared);
    Ok(words)
}

impl<S> RowPass<S> {
    /// The pass's number: 0 for the first, and for each other one the number of passes made before it.
    pub fn number(&self) -> u32
        ensures { result ≡ (log_of self.now).number }
    {
        self.number
    }
}
