//! The end, where the states come out.
ghost use Rattle.std.specs.Prelude.{◌≡◌, ◌≤◌, [], length, vec_capacity};
ghost use Rattle.std.specs.Slots.{slots_items, slots_len, IsFull};
ghost use Rattle.turn_rows.specs.Rule.{meaning};
ghost use Rattle.turn_rows.specs.Passes.{IsPassOf, logs_of, HasAll, row_count, shared_count, tag_state, AllLast, AllDrawn};

use crate::held::Held;
use crate::rows::{RowPass, Rows, Ruled};
use atomic_table::Closed;
use std::alloc::Global;

impl<S: Held> Rows<S> {
    /// The state of each row, in order. The pass has to keep the logs of all others. It takes no memory.
    ///
    /// Of each row, what each of these passes has seen is a beginning of the state's entries, its entries of each pass are that pass's own, in order, and it has no others. Together the passes drew the numbers from the shared count up to some last one, each once.
    pub fn close(self, pass: RowPass<S>) -> Vec<S>
        requires own { IsPassOf self pass }
        requires all { HasAll (logs_of pass) }
        ensures rows { length result.items ≡ row_count self }
        ensures states { AllLast (meaning S.entries S.by S.turns S.tag S.mark) (tag_state self) (logs_of pass) result.items }
        ensures draws { AllDrawn (shared_count self) (logs_of pass) }
    {
        let Ruled {
            table,
            spare,
            count,
        } = self;
        let RowPass {
            seat,
            number: _,
            made: _,
        } = pass;
        take_out(table.close_with(seat), spare, count)
    }
}

/// The values of all slots, in order, in room that is there already.
fn take_out<S>(mut closed: Closed<S, Global>, mut states: Vec<S>, count: usize) -> Vec<S>
    requires full { IsFull closed.slots }
    requires count { count ≡ slots_len closed.slots }
    requires empty { states.items ≡ [] }
    requires room { count ≤ vec_capacity states }
    ensures { result.items ≡ slots_items closed.slots }
{
    for row in 0..count {
        states.push_reserved(closed.take(row));
    }
    closed.free();
    states
}
