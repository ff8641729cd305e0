//! What a task of a script does, and its code, whose names and sites are resolved.
#![tactic(auto)]

mod bodies;
mod compiling;
mod expressions;
mod locals;
mod members;
mod names;
mod operands;
mod statements;
#[cfg(test)]
mod tests;

pub use compiling::{ScriptCode, compile};
