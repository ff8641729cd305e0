ghost use Rattle.std.specs.Prelude.{◌≡◌, ◌↔◌, IsTrue, IfOk};
ghost use Rattle.dyn_value.specs.Outcomes.{outcome_of};

use crate::fault::Fault;
use crate::value::Value;
use std::alloc::AllocError;

/// What an operation gave.
#[derive(Debug, Drop)]
pub enum Outcome {
    /// The operation's value.
    Value(Value),
    /// The function of this number is to be called.
    Call(u32),
    /// An object is to be made by the function of this number.
    Make(u32),
    /// The operation's fault, by which it had no effect.
    Fault(Fault),
}

impl Outcome {
    /// The outcome that is this value or this fault.
    pub fn of(answer: Result<Value, Fault>) -> Outcome
        ensures { result ≡ outcome_of answer }
    {
        match answer {
            Ok(value) => Outcome::Value(value),
            Err(fault) => Outcome::Fault(fault),
        }
    }

    /// Whether the two outcomes have the same form and the same content.
    pub fn same(&self, other: &Outcome) -> bool
        ensures { IsTrue result ↔ (self.now ≡ other.now) }
    {
        match (self, other) {
            (Outcome::Value(mine), Outcome::Value(theirs)) => mine.same(theirs),
            (Outcome::Call(mine), Outcome::Call(theirs)) => mine == theirs,
            (Outcome::Make(mine), Outcome::Make(theirs)) => mine == theirs,
            (Outcome::Fault(mine), Outcome::Fault(theirs)) => mine.same(theirs),
            _ => false,
        }
    }

    /// An equal outcome. The one error is want of memory.
    pub fn copy(&self) -> Result<Outcome, AllocError>
        ensures { IfOk result (λ o. o ≡ self.now) }
    {
        Ok(match self {
            Outcome::Value(value) => Outcome::Value(value.copy()?),
            Outcome::Call(function) => Outcome::Call(*function),
            Outcome::Make(function) => Outcome::Make(*function),
            Outcome::Fault(fault) => Outcome::Fault(fault.copy()?),
        })
    }
}
