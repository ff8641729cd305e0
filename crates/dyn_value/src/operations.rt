ghost use Rattle.std.specs.Prelude.{◌≡◌, ◌++◌, IfOk, Bool, Ok, Err, MatchResult, not, ◌-ℤ◌, ◌*ℤ◌, ◌&&◌, ◌||◌};
ghost use Rattle.std.specs.Ordering.{is_lt, is_le, is_gt, is_ge};
ghost use Rattle.std.specs.declared.cmp.Ordering.{Ordering};
ghost use Rattle.dyn_value.specs.Operations.{unary_of, binary_of, truth, whole, on_numbers, on_ordered, on_truths, quotient_of, remainder_of, sum_of};
ghost use Rattle.dyn_value.specs.Operations as spec;
ghost use Rattle.dyn_value.specs.Proper.{IsProper};

use crate::arithmetic;
use crate::fault::Fault;
use crate::operator::{BinOp, UnOp};
use crate::text::DynText;
use crate::value::Value;
use std::alloc::{AllocError, Global};
use std::cmp::Ordering;

/// What the operator gives on a value, taken over whole numbers without bounds. It takes no memory.
///
/// - `Negate` on an `Int` gives the negated number, and `Overflow` for the least one.
/// - `Not` gives true for nil, and the other truth value for a `Bool`.
/// - `IsTrue` gives false for nil, and a `Bool` itself.
/// - On every other kind each gives `NoOperator`.
pub fn unary(op: UnOp, value: &Value) -> Result<Value, Fault>
    ensures answer { result ≡ unary_of op value.now }
    ensures proper { IsProper value.now → IfOk result IsProper }
{
    match (op, value) {
        (UnOp::Negate, Value::Int(number)) => arithmetic::negated(*number),
        (UnOp::Not, Value::Nil) => Ok(Value::Bool(true)),
        (UnOp::Not, Value::Bool(truth)) => Ok(Value::Bool(!*truth)),
        (UnOp::IsTrue, Value::Nil) => Ok(Value::Bool(false)),
        (UnOp::IsTrue, Value::Bool(truth)) => Ok(Value::Bool(*truth)),
        _ => Err(Fault::NoOperator),
    }
}

/// What the operator gives on two values, taken over whole numbers without bounds.
///
/// - `Add` gives the sum of two `Int`s, or `Overflow`; and two `Text`s joined, or `TextLong` above
///   65,536 bytes. Only the joining takes memory.
/// - `Subtract` and `Multiply` give the result on two `Int`s, or `Overflow`.
/// - `Divide` on two `Int`s gives `ZeroDivide` for the divisor 0, `Overflow` for the least number by
///   -1, and else the quotient truncated towards zero.
/// - `Modulo` on two `Int`s gives `ZeroDivide` for the divisor 0, and else the remainder with the
///   dividend's sign.
/// - `Equal` and `NotEqual` say of any two values whether they have the same kind and content.
/// - `LessThan`, `LessThanOrEqual`, `GreaterThan` and `GreaterThanOrEqual` compare two `Int`s as
///   numbers, and two `Text`s by their bytes.
/// - `And` and `Or` are those of two `Bool`s.
/// - On every other pair of kinds each gives `NoOperator`.
///
/// The inner result is the answer; the outer one fails for want of memory alone.
pub fn binary(
    alloc: Global,
    op: BinOp,
    left: &Value,
    right: &Value,
) -> Result<Result<Value, Fault>, AllocError>
    ensures answer { IfOk result (λ r. r ≡ binary_of op left.now right.now) }
    ensures proper { IfOk result (λ r. IsProper left.now → IsProper right.now → IfOk r IsProper) }
{
    Ok(match op {
        BinOp::Add => sum(alloc, left, right)?,
        BinOp::Subtract => difference(left, right),
        BinOp::Multiply => product(left, right),
        BinOp::Divide => quotient(left, right),
        BinOp::Modulo => remainder(left, right),
        BinOp::Equal => Ok(Value::Bool(left.same(right))),
        BinOp::NotEqual => Ok(Value::Bool(!left.same(right))),
        BinOp::LessThan => less_than(left, right),
        BinOp::LessThanOrEqual => less_than_or_equal(left, right),
        BinOp::GreaterThan => greater_than(left, right),
        BinOp::GreaterThanOrEqual => greater_than_or_equal(left, right),
        BinOp::And => both(left, right),
        BinOp::Or => either(left, right),
    })
}

fn sum(alloc: Global, left: &Value, right: &Value) -> Result<Result<Value, Fault>, AllocError>
    ensures { IfOk result (λ r. r ≡ sum_of left.now right.now) }
{
    match (left, right) {
        (Value::Int(left), Value::Int(right)) => Ok(arithmetic::sum(*left, *right)),
        (Value::Text(left), Value::Text(right)) => joined(alloc, left, right),
        _ => Ok(Err(Fault::NoOperator)),
    }
}

/// The two texts joined, or `TextLong`.
fn joined(
    alloc: Global,
    left: &DynText,
    right: &DynText,
) -> Result<Result<Value, Fault>, AllocError>
    ensures { IfOk result (λ r. r ≡ spec.joined (left.now ++ right.now)) }
{
    Ok(match left.join(alloc, right)? {
        Some(text) => Ok(Value::Text(text)),
        None => Err(Fault::TextLong),
    })
}

fn difference(left: &Value, right: &Value) -> Result<Value, Fault>
    ensures { result ≡ on_numbers (λ x y. whole (x -ℤ y)) left.now right.now }
{
    match (left, right) {
        (Value::Int(left), Value::Int(right)) => arithmetic::difference(*left, *right),
        _ => Err(Fault::NoOperator),
    }
}

fn product(left: &Value, right: &Value) -> Result<Value, Fault>
    ensures { result ≡ on_numbers (λ x y. whole (x *ℤ y)) left.now right.now }
{
    match (left, right) {
        (Value::Int(left), Value::Int(right)) => arithmetic::product(*left, *right),
        _ => Err(Fault::NoOperator),
    }
}

fn quotient(left: &Value, right: &Value) -> Result<Value, Fault>
    ensures { result ≡ on_numbers quotient_of left.now right.now }
{
    match (left, right) {
        (Value::Int(left), Value::Int(right)) => arithmetic::quotient(*left, *right),
        _ => Err(Fault::NoOperator),
    }
}

fn remainder(left: &Value, right: &Value) -> Result<Value, Fault>
    ensures { result ≡ on_numbers remainder_of left.now right.now }
{
    match (left, right) {
        (Value::Int(left), Value::Int(right)) => arithmetic::remainder(*left, *right),
        _ => Err(Fault::NoOperator),
    }
}

/// How two numbers, or the bytes of two texts, are ordered; `NoOperator` for other kinds.
fn order(left: &Value, right: &Value) -> Result<Ordering, Fault>
    ensures { MatchResult result
        (λ order. (test : Ordering → Bool) → on_ordered test left.now right.now ≡ truth (test order))
        (λ fault. (test : Ordering → Bool) → on_ordered test left.now right.now ≡ Err fault) }
{
    match (left, right) {
        (Value::Int(left), Value::Int(right)) => Ok(left.cmp(right)),
        (Value::Text(left), Value::Text(right)) => Ok(left.as_str().cmp(&right.as_str())),
        _ => Err(Fault::NoOperator),
    }
}

fn less_than(left: &Value, right: &Value) -> Result<Value, Fault>
    ensures { result ≡ on_ordered is_lt left.now right.now }
{
    let order = order(left, right)?;
    Ok(Value::Bool(order.is_lt()))
}

fn less_than_or_equal(left: &Value, right: &Value) -> Result<Value, Fault>
    ensures { result ≡ on_ordered is_le left.now right.now }
{
    let order = order(left, right)?;
    Ok(Value::Bool(order.is_le()))
}

fn greater_than(left: &Value, right: &Value) -> Result<Value, Fault>
    ensures { result ≡ on_ordered is_gt left.now right.now }
{
    let order = order(left, right)?;
    Ok(Value::Bool(order.is_gt()))
}

fn greater_than_or_equal(left: &Value, right: &Value) -> Result<Value, Fault>
    ensures { result ≡ on_ordered is_ge left.now right.now }
{
    let order = order(left, right)?;
    Ok(Value::Bool(order.is_ge()))
}

fn both(left: &Value, right: &Value) -> Result<Value, Fault>
    ensures { result ≡ on_truths (λ x y. x && y) left.now right.now }
{
    match (left, right) {
        (Value::Bool(left), Value::Bool(right)) => Ok(Value::Bool(*left && *right)),
        _ => Err(Fault::NoOperator),
    }
}

fn either(left: &Value, right: &Value) -> Result<Value, Fault>
    ensures { result ≡ on_truths (λ x y. x || y) left.now right.now }
{
    match (left, right) {
        (Value::Bool(left), Value::Bool(right)) => Ok(Value::Bool(*left || *right)),
        _ => Err(Fault::NoOperator),
    }
}
