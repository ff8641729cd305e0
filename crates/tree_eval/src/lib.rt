//! Trees evaluated: as tests, and as bodies, over the state of an object or over none.
#![tactic(auto)]

mod answer;
mod plain;
mod prepared;
#[cfg(test)]
mod tests;
mod truth;

pub use plain::eval_plain;
pub use prepared::{Prepared, eval};
pub use truth::test;
