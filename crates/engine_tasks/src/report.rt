//! What a run came to.
use dlr_engine::Closed;
use dyn_value::DynText;
use sqlite_items::Items;
use task_walk::Ended;

/// How a task ended, what it printed, and the numbers that it drew for new objects.
#[derive(Debug, Drop)]
pub struct TaskEnd {
    /// The lines that it printed.
    pub lines: Items<DynText>,
    /// How it ended.
    pub ended: Ended,
    /// The numbers that it drew, in order.
    pub drawn: Items<u64>,
}

/// What a run came to: an end for each task, in script order, and what the engine kept of all objects.
#[derive(Debug, Drop)]
pub struct Report {
    /// The ends of the tasks.
    pub tasks: Items<TaskEnd>,
    /// The history of each object, made or not.
    pub closed: Closed,
}
