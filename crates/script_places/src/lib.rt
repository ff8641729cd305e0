//! Where a refusal of a script points: the line, the column and the line's text of the place that its words name.
#![tactic(auto)]

mod answer;
mod places;
mod position;
mod refusal;
mod shown;
#[cfg(test)]
mod tests;

pub use answer::explain;
pub use places::place_of_refusal;
pub use position::{Position, position_of};
pub use refusal::{Refusal, read_refusal};
pub use shown::shown_position;
