//! The list, and how it grows.
ghost use Rattle.std.specs.Prelude.{◌≡◌, []};

use crate::operation::AnsweredOperation;
use crate::said::{AnyList, Said, Say};
use atomic_table::{Seat, Table};
use dyn_value::Value;
use std::alloc::{AllocError, Global};
use std::collections::LinkedList;
use std::snapshot::Snapshot;

/// The operations that were answered, in order. Contracts see them by `operations_of`; no call reads them, and none is
/// kept: a list of any length takes one word of memory.
#[derive(Drop)]
pub struct Answered {
    pub(crate) table: Table<Said, LinkedList<AnsweredOperation>, u64, AnyList, Global>,
    pub(crate) seat: Seat<Said, LinkedList<AnsweredOperation>>,
    ghost own: { seat.table_id ≡ table.shared.table_id },
    ghost sized: { table.shared.table_id.words ≡ 1 },
    ghost rests: { seat.me.1 ≡ [] },
}

impl Answered {
    ghost use Rattle.std.specs.Prelude.{◌++◌, ◌∷◌, IfOk};
    ghost use Rattle.answered_operations.specs.Additions.{after_said};
    ghost use Rattle.answered_operations.specs.Operations.{operations_of};

    /// A list with no operation. The error is want of memory; no other call takes any.
    pub fn new(alloc: Global) -> Result<Answered, AllocError>
        ensures { IfOk result (λ answered. operations_of answered ≡ []) }
    {
        let (table, seat) = Table::of_words(alloc, &[0], &0)?;
        Ok(Answered { table, seat })
    }

    /// Puts the operation at this site, on these operands, at the end of the list. It copies no operand, takes no
    /// memory and waits for nobody.
    pub fn add(&mut self, site: u32, operands: &[Value])
        ensures { operations_of self.new
            ≡ operations_of self.old ++ record { site = site; operands = operands.now } ∷ [] }
    {
        self.say(&Said::Site(site));
        for operand in operands {
            self.say(&Said::Operand(Snapshot::of(operand)));
        }
    }

    // Says a part of an operation: its site begins it, and each operand is one of the operation begun last.
    fn say(&mut self, part: &Said)
        ensures { operations_of self.new ≡ after_said (operations_of self.old) part.now }
    {
        let Answered { table, seat } = self;
        let shared = &table.shared;
        shared.compare_exchange_with::<Say>(seat, 0, 0, 0, part);
    }
}
