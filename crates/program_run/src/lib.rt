//! The run of a task of a script over a world that answers its operations.
#![tactic(auto)]

mod running;
#[cfg(test)]
mod tests;

pub use running::run_task;
