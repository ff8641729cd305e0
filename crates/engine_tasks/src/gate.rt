//! Gates.
use std::sync::Wait;

/// Is called before each operation on an object. No promise depends on it: it may look, and it may wait.
pub trait Gate {
    /// Before the operation of this number, from 0, which the task makes on an object.
    fn at<R: Wait>(&self, rt: &R, task: u32, number: u64);
}

/// A gate that does nothing.
#[derive(Clone, Copy, Debug)]
pub struct OpenGate;

impl Gate for OpenGate {
    fn at<R: Wait>(&self, _rt: &R, _task: u32, _number: u64) {}
}
