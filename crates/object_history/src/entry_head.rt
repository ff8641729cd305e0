//! Who makes an entry.

/// The head of an entry: who makes the operation, and by which binder.
#[derive(Clone, Copy, Debug)]
pub struct EntryHead {
    /// The number of the pass.
    pub pass: u32,
    /// The number of the task.
    pub task: u32,
    /// The number of the binder in the row's tag.
    pub binder: u32,
}
