//! What is bound for operators and conversions, by the kinds of the operands.
use crate::tests::bindings::{WAYS, printed_bound};
use crate::tests::operation::{Asked, Operand, Operation};
use dyn_value::{BinOp, Kind, UnOp};
use std::alloc::{AllocError, Global};
use std::process::Abort;
use std::sync::Wait;
use std::test::Fail;

/// A value of each kind.
static VALUES: [(Kind, Operand); 6] = [
    (Kind::Nil, Operand::Nil),
    (Kind::Bool, Operand::Bool),
    (Kind::Int, Operand::Int),
    (Kind::Text, Operand::Text("7")),
    (Kind::Fun, Operand::Fun(1)),
    (Kind::Obj, Operand::Obj),
];

/// The kinds of whose values an operator is one.
static UNARY: [(UnOp, &[Kind]); 3] = [
    (UnOp::Negate, &[Kind::Int]),
    (UnOp::Not, &[Kind::Nil, Kind::Bool]),
    (UnOp::IsTrue, &[Kind::Nil, Kind::Bool]),
];

/// The kinds that may be converted to a kind.
static CONVERSIONS: [(Kind, &[Kind]); 6] = [
    (Kind::Nil, &[Kind::Nil]),
    (Kind::Bool, &[Kind::Nil, Kind::Bool, Kind::Int]),
    (Kind::Int, &[Kind::Bool, Kind::Int, Kind::Text]),
    (
        Kind::Text,
        &[
            Kind::Nil,
            Kind::Bool,
            Kind::Int,
            Kind::Text,
            Kind::Fun,
            Kind::Obj,
        ],
    ),
    (Kind::Fun, &[Kind::Fun]),
    (Kind::Obj, &[Kind::Obj]),
];

/// The kinds of whose values an operator is one, both the same.
static BINARY: [(BinOp, &[Kind]); 11] = [
    (BinOp::Add, &[Kind::Int, Kind::Text]),
    (BinOp::Subtract, &[Kind::Int]),
    (BinOp::Multiply, &[Kind::Int]),
    (BinOp::Divide, &[Kind::Int]),
    (BinOp::Modulo, &[Kind::Int]),
    (BinOp::LessThan, &[Kind::Int, Kind::Text]),
    (BinOp::LessThanOrEqual, &[Kind::Int, Kind::Text]),
    (BinOp::GreaterThan, &[Kind::Int, Kind::Text]),
    (BinOp::GreaterThanOrEqual, &[Kind::Int, Kind::Text]),
    (BinOp::And, &[Kind::Bool]),
    (BinOp::Or, &[Kind::Bool]),
];

fn is_among(kinds: &[Kind], kind: Kind) -> bool {
    kinds.iter().any(|other| *other == kind)
}

/// That the operation is bound so, by the binding and by the fallback of its binder.
fn expect<R: Abort + Wait>(
    rt: &R,
    alloc: Global,
    asked: Asked,
    operands: &[Operand],
    want: &str,
) -> Result<(), Fail> {
    let operation = Operation {
        asked,
        operands,
        names: &["x"],
    };
    for way in WAYS {
        let text = printed_bound(rt, alloc, operation, way)?;
        assert!(rt; text.as_slice() == want.as_bytes(), "{way:?}: {want}");
    }
    Ok(())
}

#[test]
fn operators_with_one_operand(rt: HostRuntime) -> Result<(), Fail> {
    let alloc = rt.alloc();
    for &(op, kinds) in &UNARY {
        for &(kind, value) in &VALUES {
            let want = if is_among(kinds, kind) {
                format!(in alloc; "(kind 0 {kind:?}) ({op:?} 0)")?
            } else {
                format!(in alloc; "(kind 0 {kind:?}) (throw NoOperator)")?
            };
            expect(&rt, alloc, Asked::Unary(op), &[value], want.as_str())?;
        }
    }
    Ok(())
}

#[test]
fn conversions(rt: HostRuntime) -> Result<(), Fail> {
    let alloc = rt.alloc();
    for &(to, kinds) in &CONVERSIONS {
        for &(kind, value) in &VALUES {
            let want = if is_among(kinds, kind) {
                format!(in alloc; "(kind 0 {kind:?}) (convert {to:?} 0)")?
            } else {
                format!(in alloc; "(kind 0 {kind:?}) (throw NoConvert)")?
            };
            expect(&rt, alloc, Asked::Convert(to), &[value], want.as_str())?;
        }
    }
    Ok(())
}

#[test]
fn operators_with_two_operands(rt: HostRuntime) -> Result<(), Fail> {
    let alloc = rt.alloc();
    for &(op, kinds) in &BINARY {
        for &(left, target) in &VALUES {
            for &(right, other) in &VALUES {
                let is_on = left == right && is_among(kinds, left);
                let want = binary_text(alloc, op, left, right, is_on)?;
                expect(
                    &rt,
                    alloc,
                    Asked::Binary(op),
                    &[target, other],
                    want.as_str(),
                )?;
            }
        }
    }
    Ok(())
}

#[test]
fn any_two_values_are_compared(rt: HostRuntime) -> Result<(), Fail> {
    let alloc = rt.alloc();
    for op in [BinOp::Equal, BinOp::NotEqual] {
        for &(left, target) in &VALUES {
            for &(right, other) in &VALUES {
                let want = binary_text(alloc, op, left, right, true)?;
                expect(
                    &rt,
                    alloc,
                    Asked::Binary(op),
                    &[target, other],
                    want.as_str(),
                )?;
            }
        }
    }
    Ok(())
}

/// The text of what is bound for an operator on values of these kinds, on which it is one or is not.
fn binary_text(
    alloc: Global,
    op: BinOp,
    left: Kind,
    right: Kind,
    is_on: bool,
) -> Result<String, AllocError> {
    if is_on {
        format!(in alloc; "(and (kind 0 {left:?}) (kind 1 {right:?})) ({op:?} 0 1)")
    } else {
        format!(in alloc; "(and (kind 0 {left:?}) (kind 1 {right:?})) (throw NoOperator)")
    }
}
