//! The known rules of a binder: a pass publishes its own, learns those of others, and finds the most recent that passes.
#![tactic(auto)]

mod cache;
mod pass;
mod probe;
mod rows;
#[cfg(test)]
mod tests;

pub use cache::{Cache, Published};
pub use pass::CachePass;
pub use probe::{Adopt, Probe};
