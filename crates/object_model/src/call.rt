ghost use Rattle.std.specs.Prelude.{◌≡◌, ℕ, ◌≤◌, length, IfOk};
ghost use Rattle.std.specs.Option.{option_copied};
ghost use Rattle.object_model.specs.Plain as spec;
ghost use Rattle.object_model.specs.Plain.{called, IsAnswerIn};

use dyn_value::{DynText, Fault, Outcome, is_among};
use standard_binders::CallInfo;
use std::alloc::AllocError;

/// What comes of a call of a function with these parameters, at most 16: its arguments are `before` further ones, none
/// or the object that is made, and those of `info`. The one error is want of memory.
///
/// - `WrongCount` where there are not as many arguments as parameters.
/// - `NoParameter` with the first name that is no parameter, or is one that an argument by place fills.
/// - Else `call`.
pub fn call_outcome(
    parameters: &[DynText],
    before: u32,
    info: &CallInfo,
    call: Outcome,
) -> Result<Outcome, AllocError>
    requires few { length parameters.now ≤ 16 }
    requires before { before ≤ 1 }
    ensures outcome { IfOk result (λ o. o ≡ called parameters.now before info.now call) }
    ensures answer { (functions objects : ℕ) →
        IsAnswerIn functions objects call → IfOk result (IsAnswerIn functions objects) }
{
    let given = before + info.count();
    if given as usize != parameters.len() {
        let fault = Fault::WrongCount(parameters.len() as u32, given);
        return Ok(Outcome::Fault(fault));
    }
    let by_place = given as usize - info.names().len();
    match first_stray(&parameters[by_place..], info.names()) {
        Some(name) => Ok(Outcome::Fault(Fault::NoParameter(name.copy()?))),
        None => Ok(call),
    }
}

/// The first of these names that is no parameter.
fn first_stray<'a>(parameters: &[DynText], names: &'a [DynText]) -> Option<&'a DynText>
    ensures { option_copied result ≡ spec.first_stray parameters.now names.now }
{
    names.iter().find(|name| !is_among(parameters, name))
}
