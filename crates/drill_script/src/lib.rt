//! The script of the drill: eight tasks over one shared object, whose statements the draws of a seed choose.
#![tactic(auto)]

mod draws;
mod script;
mod statement;
#[cfg(test)]
mod tests;

pub use script::drill_script;
