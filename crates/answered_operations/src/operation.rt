//! What contracts see of an operation that was answered. It stands in proofs alone: no value of it is made.
use dyn_value::Value;
use std::collections::LinkedList;

/// An operation that was answered.
pub struct AnsweredOperation {
    /// The number of its site.
    pub site: u32,
    /// The values that it was asked with, in order.
    pub operands: LinkedList<Value>,
}
