//! How the list grows: the site of an operation is said, and then each operand, since a slice cannot be said at once.
ghost use Rattle.std.specs.Prelude.{[]};
ghost use Rattle.answered_operations.specs.Additions.{says};

use crate::operation::AnsweredOperation;
use atomic_table::{Play, TableRule};
use dyn_value::Value;
use std::collections::LinkedList;
use std::snapshot::Snapshot;

/// A part of an operation. It owns no value: that of an operand is for contracts alone.
#[derive(Drop)]
pub enum Said {
    Site(u32),
    Operand(Snapshot<Value>),
}

/// The rule of the word under the list: each word and each list will do.
pub struct AnyList;

impl TableRule<Said, LinkedList<AnsweredOperation>, u64> for AnyList {
    ghost holds = { λ key state. Unit {0} };

    ghost first = { λ key. [] };
}

/// A part is said.
pub struct Say;

impl Play<Said, LinkedList<AnsweredOperation>> for Say {
    ghost then = { says };
}
