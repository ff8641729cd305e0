use super::{Bool, Fun, Int, Nil, Obj, Sample, Text, printed, value};
use crate::{BinOp, binary};
use std::test::Fail;

/// A value of each kind.
static ONE_OF_EACH: [Sample; 6] = [Nil, Bool(true), Int(7), Text("7"), Fun(7), Obj(7)];

const NONE: &str = "NoOperator";

/// What each operator gives on two equal values of each kind.
static EQUAL_KINDS: [(BinOp, [&str; 6]); 13] = [
    (BinOp::Add, [NONE, NONE, "14", "77", NONE, NONE]),
    (BinOp::Subtract, [NONE, NONE, "0", NONE, NONE, NONE]),
    (BinOp::Multiply, [NONE, NONE, "49", NONE, NONE, NONE]),
    (BinOp::Divide, [NONE, NONE, "1", NONE, NONE, NONE]),
    (BinOp::Modulo, [NONE, NONE, "0", NONE, NONE, NONE]),
    (
        BinOp::Equal,
        ["true", "true", "true", "true", "true", "true"],
    ),
    (
        BinOp::NotEqual,
        ["false", "false", "false", "false", "false", "false"],
    ),
    (BinOp::LessThan, [NONE, NONE, "false", "false", NONE, NONE]),
    (
        BinOp::LessThanOrEqual,
        [NONE, NONE, "true", "true", NONE, NONE],
    ),
    (
        BinOp::GreaterThan,
        [NONE, NONE, "false", "false", NONE, NONE],
    ),
    (
        BinOp::GreaterThanOrEqual,
        [NONE, NONE, "true", "true", NONE, NONE],
    ),
    (BinOp::And, [NONE, "true", NONE, NONE, NONE, NONE]),
    (BinOp::Or, [NONE, "true", NONE, NONE, NONE, NONE]),
];

/// What is wanted of two values, where those of one kind are equal.
fn wanted(op: BinOp, is_one_kind: bool, equal: &'static str) -> &'static str {
    match (op, is_one_kind) {
        (_, true) => equal,
        (BinOp::Equal, false) => "false",
        (BinOp::NotEqual, false) => "true",
        (_, false) => NONE,
    }
}

#[test]
fn every_operator_on_every_pair_of_kinds(rt: HostRuntime) -> Result<(), Fail> {
    let alloc = rt.alloc();
    for (op, answers) in &EQUAL_KINDS {
        for (left, equal) in ONE_OF_EACH.iter().zip(answers) {
            let left = value(alloc, *left)?;
            for right in &ONE_OF_EACH {
                let right = value(alloc, *right)?;
                let want = wanted(*op, left.kind() == right.kind(), equal);
                let answer = binary(alloc, *op, &left, &right)?;
                assert!(rt;
                    printed(alloc, &answer)?.as_slice() == want.as_bytes(),
                    "{op:?} {left:?} {right:?}"
                );
            }
        }
    }
    Ok(())
}
