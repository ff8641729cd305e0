//! The words of the command `dlr`: what they ask for.
#![tactic(auto)]

mod numbers;
mod parsing;
#[cfg(test)]
mod tests;
mod words;

pub use words::{Command, Options, WordsRefused, read_words};
