//! Rows of states that tasks share, each behind turns: a turn is served by its ticket, and a pass is what one task knows.
#![tactic(auto)]

mod close;
mod draw;
mod held;
mod passes;
mod plays;
mod rows;
#[cfg(test)]
mod tests;
mod turn;
mod view;

pub use held::{Held, Step};
pub use rows::{RowPass, Rows, Ruled};
pub use view::{Log, Stage, Start, View};
