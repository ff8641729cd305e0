//! Expression trees: at most 64 nodes of tests and of one answer, and what they mean.
#![tactic(auto)]

mod body;
mod node;
mod printing;
#[cfg(test)]
mod tests;
mod tree;

pub use body::Body;
pub use node::Node;
pub use tree::{Tree, TreeRefused};
