//! Published rules that threads share: each stays at its index for good.
#![tactic(auto)]

mod cells;
#[cfg(test)]
mod tests;

pub use cells::{Cells, Known};
