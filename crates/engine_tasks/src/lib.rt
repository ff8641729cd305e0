//! The tasks of a program over the engine: one after the other in one pass, or each on a thread with a pass of its own.
#![tactic(auto)]

mod beside;
mod gate;
mod jobs;
mod report;
mod running;
mod serial;
mod task;
#[cfg(test)]
mod tests;
mod world;

pub use gate::{Gate, OpenGate};
pub use report::{Report, TaskEnd};
pub use running::run_tasks;
