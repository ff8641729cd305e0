//! The states of expando objects: a class, and a value at the place of each of its names.
#![tactic(auto)]

mod state;
#[cfg(test)]
mod tests;

pub use state::ObjState;
