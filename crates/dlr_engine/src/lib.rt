//! The engine: objects on which tasks operate in turns, each operation answered by a rule that is known of its binder or
//! bound where it is made, and each object with the one history of the operations on it.
#![tactic(auto)]

mod answer;
mod binding;
mod choosing;
mod closed;
mod engine;
mod gathered;
mod making;
mod mind;
mod operation;
mod pass;
mod plain;
mod publishing;
mod run;
mod starting;
#[cfg(test)]
mod tests;
mod turn;

pub use answer::{Answer, Level, Levels};
pub use closed::Closed;
pub use engine::Engine;
pub use pass::{Drawn, Pass};
