//! The operations that were answered, as a list that contracts see and no program keeps.
#![tactic(auto)]

mod answered;
mod operation;
mod said;
#[cfg(test)]
mod tests;

pub use answered::Answered;
pub use operation::AnsweredOperation;
