//! What a pass knows. These values stand in proofs alone: but for `Start`, none is made.
use std::collections::LinkedList;
use std::snapshot::Snapshot;

/// Where a pass is in its turn, with the row, the ticket, and the state that it has out.
pub enum Stage<S> {
    Idle,
    Waiting(u64, u64),
    Served(u64, u64),
    Holding(u64, u64, S),
    Leaving(u64, u64),
}

/// A pass's number, the number of passes that it made (0 but in the first), its count of calls, each row's state as its last turn there left it, and the numbers that it drew.
pub struct Log<S> {
    pub number: u64,
    pub made: u64,
    pub calls: u64,
    pub rows: LinkedList<S>,
    pub draws: LinkedList<u64>,
}

/// A pass that was not joined has its own log and those of the passes that were joined to it.
pub struct View<S> {
    pub live: bool,
    pub shared: u64,
    pub start: LinkedList<S>,
    pub stage: Stage<S>,
    pub own: Log<S>,
    pub kept: LinkedList<Log<S>>,
}

/// What the rule reads of the start: the number from which draws begin, one state, whose tag all have, and all states.
#[derive(Drop)]
pub struct Start<S> {
    pub shared: u64,
    pub one: Snapshot<S>,
    pub states: Snapshot<Vec<S>>,
}
