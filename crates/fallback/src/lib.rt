//! What the script language answers of its own: for each binder its fallback.
#![tactic(auto)]

mod call_rows;
mod language;
mod operand;
mod operator_rows;
mod own;
mod row_tests;
mod rows;
mod script;
#[cfg(test)]
mod tests;

pub use script::Script;
