//! The code of tasks and functions, whose names and sites are resolved, and what it does, act by act.
#![tactic(auto)]

mod code;
mod frame;

pub use code::{FunctionCode, Node, NodeHead, NodeSuffix, Step, Steps};
pub use frame::{Flow, Frame};
