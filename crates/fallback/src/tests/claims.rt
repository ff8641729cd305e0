//! What the bounds of operations claim; expected claims are worked out by hand.
use crate::tests::bindings::{WAYS, bound_of};
use crate::tests::members::SIXTY_FOUR;
use crate::tests::operation::{Asked, Operand, Operation};
use rule_model::{ClassClaim, FunClaim};
use std::test::Fail;

/// What is asked of which operands, on a class with these names, and what is claimed of the class: its number, the
/// name, the place of the name, whether the class is full, and the number of the class after.
type ClassRow = (
    Asked,
    &'static [Operand],
    &'static [&'static str],
    (u128, &'static str, Option<u16>, bool, Option<u128>),
);

static CLASSES: [ClassRow; 8] = [
    (
        Asked::Get("x"),
        &[Operand::Obj],
        &["x", "y"],
        (2, "x", Some(0), false, None),
    ),
    (
        Asked::Get("z"),
        &[Operand::Obj],
        &["x", "y"],
        (2, "z", None, false, None),
    ),
    (
        Asked::InvokeMember("m63", 0, &[]),
        &[Operand::Obj],
        SIXTY_FOUR,
        (64, "m63", Some(63), true, None),
    ),
    (
        Asked::Set("z"),
        &[Operand::Obj, Operand::Nil],
        &["x", "y"],
        (2, "z", None, false, Some(3)),
    ),
    (
        Asked::Set("m64"),
        &[Operand::Obj, Operand::Nil],
        SIXTY_FOUR,
        (64, "m64", None, true, None),
    ),
    (
        Asked::Delete("x"),
        &[Operand::Obj],
        &["x", "y"],
        (2, "x", Some(0), false, Some(3)),
    ),
    (
        Asked::GetIndex,
        &[Operand::Obj, Operand::Text("y")],
        &["x", "y"],
        (2, "y", Some(1), false, None),
    ),
    (
        Asked::SetIndex,
        &[Operand::Obj, Operand::Text("x"), Operand::Int],
        &[],
        (0, "x", None, false, Some(1)),
    ),
];

/// Whether this is claimed of a class.
fn is_claim(
    claim: &Option<ClassClaim>,
    want: (u128, &str, Option<u16>, bool, Option<u128>),
) -> bool {
    let (class, name, place, full, after) = want;
    match claim {
        Some(claim) => {
            claim.class == class
                && claim.name.as_str() == name
                && claim.place == place
                && claim.full == full
                && claim.after == after
        }
        None => false,
    }
}

#[test]
fn claims_on_classes(rt: HostRuntime) -> Result<(), Fail> {
    let alloc = rt.alloc();
    for &(asked, operands, names, want) in &CLASSES {
        let operation = Operation {
            asked,
            operands,
            names,
        };
        for way in WAYS {
            let bound = bound_of(&rt, alloc, operation, way)?;
            assert!(rt; is_claim(&bound.claim.class, want), "{asked:?}");
            assert!(rt; bound.claim.fun.is_none(), "{asked:?}");
        }
    }
    Ok(())
}

/// Whether the function of this number is claimed, with parameters of these names.
fn is_function(claim: &Option<FunClaim>, number: u32, names: &[&str]) -> bool {
    match claim {
        Some(claim) => {
            claim.number == number
                && claim.params.len() == names.len()
                && claim
                    .params
                    .as_slice()
                    .iter()
                    .zip(names)
                    .all(|(name, want)| name.as_str() == *want)
        }
        None => false,
    }
}

#[test]
fn claims_on_functions(rt: HostRuntime) -> Result<(), Fail> {
    let alloc = rt.alloc();
    for asked in [Asked::Invoke(1, &[]), Asked::Create(1, &["c"])] {
        let operation = Operation {
            asked,
            operands: &[Operand::Fun(2), Operand::Int],
            names: &[],
        };
        for way in WAYS {
            let bound = bound_of(&rt, alloc, operation, way)?;
            assert!(rt; is_function(&bound.claim.fun, 2, &["a", "b"]), "{asked:?}");
            assert!(rt; bound.claim.class.is_none(), "{asked:?}");
        }
    }
    Ok(())
}

#[test]
fn nothing_is_claimed_of_other_operands(rt: HostRuntime) -> Result<(), Fail> {
    let alloc = rt.alloc();
    let long = Operand::Text(crate::tests::operation::TOO_LONG);
    for (asked, operands) in [
        (Asked::Get("length"), [Operand::Text("x")].as_slice()),
        (Asked::GetIndex, [Operand::Obj, long].as_slice()),
        (Asked::Invoke(0, &[]), [Operand::Obj].as_slice()),
    ] {
        let operation = Operation {
            asked,
            operands,
            names: &["x"],
        };
        for way in WAYS {
            let bound = bound_of(&rt, alloc, operation, way)?;
            assert!(rt; bound.claim.class.is_none(), "{asked:?}");
            assert!(rt; bound.claim.fun.is_none(), "{asked:?}");
        }
    }
    Ok(())
}
