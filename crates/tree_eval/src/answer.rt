//! What the nodes that touch no member answer.
ghost use Rattle.std.specs.Prelude.{◌≡◌, ◌<◌, [], IsTrue, IfOk, length};
ghost use Rattle.dyn_value.specs.Operations.{char_of, length_of};
ghost use Rattle.dyn_value.specs.Outcomes.{at};
ghost use Rattle.expr_tree.specs.Meanings.{State, answer_in, is_plain, IsThere};

use dyn_value::{Fault, Outcome, Value, binary, convert, unary};
use expr_tree::Node;
use std::alloc::{AllocError, Global};

/// What the node answers of these operands.
pub(crate) fn answer(alloc: Global, node: &Node, operands: &[Value]) -> Result<Outcome, AllocError>
    requires there { IsThere operands.now [] node.now }
    requires plain { IsTrue (is_plain node.now) }
    ensures { IfOk result (λ o. (s : State) → o ≡ answer_in operands.now s node.now) }
{
    Ok(match node {
        Node::Param(number) => Outcome::Value(copy_of(operands, *number)?),
        Node::Const(value) => Outcome::Value(value.copy()?),
        Node::Unary(op, number) => Outcome::of(unary(*op, operand(operands, *number))),
        Node::Binary(op, left, right) => {
            let left = operand(operands, *left);
            let right = operand(operands, *right);
            Outcome::of(binary(alloc, *op, left, right)?)
        }
        Node::Convert(kind, number) => {
            let value = operand(operands, *number);
            Outcome::of(convert(alloc, value, *kind)?)
        }
        Node::Length(number) => Outcome::of(length_of_text(operand(operands, *number))),
        Node::CharAt(text, place) => {
            let text = operand(operands, *text);
            let place = operand(operands, *place);
            Outcome::of(char_of_text(alloc, text, place)?)
        }
        Node::Call(function) => Outcome::Call(*function),
        Node::Make(function) => Outcome::Make(*function),
        Node::Throw(fault) => Outcome::Fault(fault.copy()?),
        _ => Outcome::Fault(Fault::NoOperator),
    })
}

/// A copy of the operand of that number.
pub(crate) fn copy_of(operands: &[Value], number: u8) -> Result<Value, AllocError>
    requires { number < length operands.now }
    ensures { IfOk result (λ v. v ≡ at operands.now number) }
{
    operand(operands, number).copy()
}

/// The operand of that number.
fn operand(operands: &[Value], number: u8) -> &Value
    requires { number < length operands.now }
    ensures { result.now ≡ at operands.now number }
{
    &operands[number as usize]
}

/// The number of characters of a text; `NoOperator` for another value.
fn length_of_text(value: &Value) -> Result<Value, Fault>
    ensures { result ≡ length_of value.now }
{
    match value {
        Value::Text(text) => Ok(Value::Int(text.length())),
        _ => Err(Fault::NoOperator),
    }
}

/// The character of a text at a place counted from 0. `NoIndex` where the text has no such place, or the place is no
/// `Int`; `NoOperator` where the first value is no text.
fn char_of_text(
    alloc: Global,
    value: &Value,
    place: &Value,
) -> Result<Result<Value, Fault>, AllocError>
    ensures { IfOk result (λ r. r ≡ char_of value.now place.now) }
{
    match (value, place) {
        (Value::Text(text), Value::Int(index)) => match text.char_at(alloc, *index)? {
            Some(character) => Ok(Ok(Value::Text(character))),
            None => Ok(Err(Fault::NoIndex)),
        },
        (Value::Text(_), _) => Ok(Err(Fault::NoIndex)),
        _ => Ok(Err(Fault::NoOperator)),
    }
}
