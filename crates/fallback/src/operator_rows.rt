//! The nodes of operators and of conversions, by the kinds of their operands.
ghost use Rattle.std.specs.Prelude.{◌≡◌};
ghost use Rattle.fallback.specs.Own as spec;

use dyn_value::{BinOp, Fault, Kind, UnOp};
use expr_tree::Node;

/// The node of an operator on a value of this kind.
pub(crate) fn unary_node(op: UnOp, kind: Kind) -> Node
    ensures { result ≡ spec.unary_node op kind }
{
    if is_unary_on(op, kind) {
        Node::Unary(op, 0)
    } else {
        Node::Throw(Fault::NoOperator)
    }
}

/// The node of an operator on values of these kinds.
pub(crate) fn binary_node(op: BinOp, left: Kind, right: Kind) -> Node
    ensures { result ≡ spec.binary_node op left right }
{
    if is_binary_on(op, left, right) {
        Node::Binary(op, 0, 1)
    } else {
        Node::Throw(Fault::NoOperator)
    }
}

/// The node that converts a value of the kind `from`.
pub(crate) fn convert_node(from: Kind, to: Kind) -> Node
    ensures { result ≡ spec.convert_node from to }
{
    if is_convertible(from, to) {
        Node::Convert(to, 0)
    } else {
        Node::Throw(Fault::NoConvert)
    }
}

fn is_unary_on(op: UnOp, kind: Kind) -> bool
    ensures { result ≡ spec.is_unary_on op kind }
{
    match op {
        UnOp::Negate => matches!(kind, Kind::Int),
        UnOp::Not | UnOp::IsTrue => matches!(kind, Kind::Nil | Kind::Bool),
    }
}

fn is_binary_on(op: BinOp, left: Kind, right: Kind) -> bool
    ensures { result ≡ spec.is_binary_on op left right }
{
    match op {
        BinOp::Subtract | BinOp::Multiply | BinOp::Divide | BinOp::Modulo => {
            are_numbers(left, right)
        }
        BinOp::Add
        | BinOp::LessThan
        | BinOp::LessThanOrEqual
        | BinOp::GreaterThan
        | BinOp::GreaterThanOrEqual => are_ordered(left, right),
        BinOp::And | BinOp::Or => are_truths(left, right),
        BinOp::Equal | BinOp::NotEqual => true,
    }
}

fn are_numbers(left: Kind, right: Kind) -> bool
    ensures { result ≡ spec.are_numbers left right }
{
    matches!((left, right), (Kind::Int, Kind::Int))
}

fn are_ordered(left: Kind, right: Kind) -> bool
    ensures { result ≡ spec.are_ordered left right }
{
    matches!(
        (left, right),
        (Kind::Int, Kind::Int) | (Kind::Text, Kind::Text)
    )
}

fn are_truths(left: Kind, right: Kind) -> bool
    ensures { result ≡ spec.are_truths left right }
{
    matches!((left, right), (Kind::Bool, Kind::Bool))
}

fn is_convertible(from: Kind, to: Kind) -> bool
    ensures { result ≡ spec.is_convertible from to }
{
    match to {
        Kind::Text => true,
        Kind::Int => matches!(from, Kind::Bool | Kind::Int | Kind::Text),
        Kind::Bool => matches!(from, Kind::Nil | Kind::Bool | Kind::Int),
        Kind::Nil | Kind::Fun | Kind::Obj => from == to,
    }
}
