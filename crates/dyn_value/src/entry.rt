use crate::outcome::Outcome;
use crate::value::Value;
use sqlite_items::Items;

/// One operation of an object's journal.
#[derive(Debug, Drop)]
pub struct Entry {
    /// The pass that made the operation.
    pub pass: u32,
    /// The task that made it.
    pub task: u32,
    /// The number of its binder in the program.
    pub binder: u32,
    /// The operands after the target.
    pub operands: Items<Value>,
    /// What it gave.
    pub outcome: Outcome,
}
