use dyn_value::Fault;

/// How a task ended.
#[derive(Debug, Drop)]
pub enum Ended {
    /// Its code came to its end.
    Done,
    /// A fault was not caught.
    Faulted(Fault),
}
