ghost use Rattle.std.specs.Prelude.{◌≡◌, ℕ, ◌<◌, length, IfOk};
ghost use Rattle.std.specs.List.{AllByRecursion};
ghost use Rattle.dyn_value.specs.Operations.{char_of};
ghost use Rattle.dyn_value.specs.Outcomes.{at, outcome_of};
ghost use Rattle.dyn_value.specs.Proper.{IsProperIn};
ghost use Rattle.standard_binders.specs.Binders.{operand_count_of};
ghost use Rattle.standard_binders.specs.Functions.{HaveFewParameters};
ghost use Rattle.object_model.specs.Plain.{plain_step, member_of, index_of, invoked, created, IsAnswerIn};

use crate::call::call_outcome;
use dyn_value::{DynText, Fault, Outcome, Value, binary, convert, unary};
use standard_binders::{Binder, CallInfo, FunTable};
use std::alloc::{AllocError, Global};

/// The outcome of an operation that looks at no object, by its operands, the target first. There are as many operands
/// as the binder has, and no function has more than [`FunTable::MOST_PARAMETERS`]. The one error is want of memory.
///
/// - A text has the member `length`, the number of its characters. All other members of a value that is no
///   object give `NoMember`, also where they are written, deleted or called.
/// - A text has at each place the text of the one character there; another key gives `NoIndex`. Every other use of
///   a key gives `NotIndexable`.
/// - A function is called, or makes an object, as [`call_outcome`] says; every other value gives `NotCallable`, or
///   `NotCreatable`.
/// - A conversion gives what [`convert`] gives, and an operator what [`unary`] or [`binary`] gives.
pub fn plain_outcome(
    alloc: Global,
    functions: &FunTable,
    binder: &Binder,
    operands: &[Value],
) -> Result<Outcome, AllocError>
    requires operands { length operands.now ≡ operand_count_of binder.now }
    requires functions { HaveFewParameters functions.now.params }
    ensures outcome { IfOk result (λ o. o ≡ plain_step functions.now.params binder.now operands.now) }
    ensures answer { (objects : ℕ) → let count = length functions.now.params in
        AllByRecursion (IsProperIn count objects) operands.now → IfOk result (IsAnswerIn count objects) }
{
    match binder {
        Binder::GetMember { name, .. } => member(operand(operands, 0), name),
        Binder::SetMember { name, .. }
        | Binder::DeleteMember { name, .. }
        | Binder::InvokeMember { name, .. } => no_member(name),
        Binder::GetIndex => element(alloc, operand(operands, 0), operand(operands, 1)),
        Binder::SetIndex | Binder::DeleteIndex => {
            let kind = operand(operands, 0).kind();
            Ok(Outcome::Fault(Fault::NotIndexable(kind)))
        }
        Binder::Invoke { info } => invoke(functions, info, operand(operands, 0)),
        Binder::CreateInstance { info } => create(functions, info, operand(operands, 0)),
        Binder::Convert { to } => Ok(Outcome::of(convert(alloc, operand(operands, 0), *to)?)),
        Binder::UnaryOperation { op } => Ok(Outcome::of(unary(*op, operand(operands, 0)))),
        Binder::BinaryOperation { op } => {
            let answer = binary(alloc, *op, operand(operands, 0), operand(operands, 1))?;
            Ok(Outcome::of(answer))
        }
    }
}

/// The operand at this place.
fn operand(operands: &[Value], place: usize) -> &Value
    requires { place < length operands.now }
    ensures operand { result.now ≡ at operands.now place }
    ensures proper { (functions objects : ℕ) →
        AllByRecursion (IsProperIn functions objects) operands.now → IsProperIn functions objects result.now }
{
    &operands[place]
}

/// The member of this name of a value that is no object.
fn member(target: &Value, name: &DynText) -> Result<Outcome, AllocError>
    ensures outcome { IfOk result (λ o. o ≡ member_of target.now name.now) }
    ensures answer { (functions objects : ℕ) → IfOk result (IsAnswerIn functions objects) }
{
    match target {
        Value::Text(text) => text_member(text, name),
        _ => no_member(name),
    }
}

/// The member of this name of a text.
fn text_member(text: &DynText, name: &DynText) -> Result<Outcome, AllocError>
    ensures outcome { IfOk result (λ o. o ≡ member_of (Value.Text text.now) name.now) }
    ensures answer { (functions objects : ℕ) → IfOk result (IsAnswerIn functions objects) }
{
    if name.as_str() == "length" {
        return Ok(Outcome::Value(Value::Int(text.length())));
    }
    no_member(name)
}

fn no_member(name: &DynText) -> Result<Outcome, AllocError>
    ensures { IfOk result (λ o. o ≡ Outcome.Fault (Fault.NoMember name.now)) }
{
    Ok(Outcome::Fault(Fault::NoMember(name.copy()?)))
}

/// What stands at this key of a value that is no object.
fn element(alloc: Global, target: &Value, key: &Value) -> Result<Outcome, AllocError>
    ensures outcome { IfOk result (λ o. o ≡ index_of target.now key.now) }
    ensures answer { (functions objects : ℕ) → IfOk result (IsAnswerIn functions objects) }
{
    match (target, key) {
        (Value::Text(text), Value::Int(place)) => character(alloc, text, *place),
        (Value::Text(_), _) => Ok(Outcome::Fault(Fault::NoIndex)),
        _ => Ok(Outcome::Fault(Fault::NotIndexable(target.kind()))),
    }
}

/// The character at this place of a text, as a text.
fn character(alloc: Global, text: &DynText, place: i64) -> Result<Outcome, AllocError>
    ensures outcome { IfOk result (λ o. o ≡ outcome_of (char_of (Value.Text text.now) (Value.Int place))) }
    ensures answer { (functions objects : ℕ) → IfOk result (IsAnswerIn functions objects) }
{
    match text.char_at(alloc, place)? {
        Some(character) => Ok(Outcome::Value(Value::Text(character))),
        None => Ok(Outcome::Fault(Fault::NoIndex)),
    }
}

/// A function is called.
fn invoke(functions: &FunTable, info: &CallInfo, target: &Value) -> Result<Outcome, AllocError>
    requires { HaveFewParameters functions.now.params }
    ensures outcome { IfOk result (λ o. o ≡ invoked functions.now.params info.now target.now) }
    ensures answer { (objects : ℕ) → let count = length functions.now.params in
        IsProperIn count objects target.now → IfOk result (IsAnswerIn count objects) }
{
    match target {
        Value::Fun(number) => {
            let parameters = functions.parameters(*number);
            call_outcome(parameters, 0, info, Outcome::Call(*number))
        }
        _ => Ok(Outcome::Fault(Fault::NotCallable(target.kind()))),
    }
}

/// An object is made by a function, which is handed it as its first argument.
fn create(functions: &FunTable, info: &CallInfo, target: &Value) -> Result<Outcome, AllocError>
    requires { HaveFewParameters functions.now.params }
    ensures outcome { IfOk result (λ o. o ≡ created functions.now.params info.now target.now) }
    ensures answer { (objects : ℕ) → let count = length functions.now.params in
        IsProperIn count objects target.now → IfOk result (IsAnswerIn count objects) }
{
    match target {
        Value::Fun(number) => {
            let parameters = functions.parameters(*number);
            call_outcome(parameters, 1, info, Outcome::Make(*number))
        }
        _ => Ok(Outcome::Fault(Fault::NotCreatable(target.kind()))),
    }
}
