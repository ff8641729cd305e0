//! The values of the script language, the operations on them, and their texts.
#![tactic(auto)]

mod arithmetic;
mod conversions;
mod entry;
mod fault;
mod label;
mod operations;
mod operator;
mod outcome;
mod quote;
#[cfg(test)]
mod tests;
mod text;
mod value;

pub use conversions::convert;
pub use entry::Entry;
pub use fault::Fault;
pub use operations::{binary, unary};
pub use operator::{BinOp, UnOp};
pub use outcome::Outcome;
pub use text::{DynText, are_distinct, is_among};
pub use value::{Kind, Value};
