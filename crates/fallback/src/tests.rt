//! What the language binds, by the bindings and by the fallbacks; expected texts are worked out by hand.
mod bindings;
mod calls;
mod claims;
mod members;
mod metas;
mod operation;
mod operators;
mod suggestions;
mod values;

use crate::tests::bindings::{WAYS, printed_bound};
use crate::tests::members::{KEYS, MEMBERS};
use crate::tests::operation::{Operation, Row};
use crate::tests::values::VALUES;
use std::alloc::Global;
use std::process::Abort;
use std::sync::Wait;
use std::test::Fail;

/// That each row is bound as it says, by the binding and by the fallback of its binder.
fn expect_rows<R: Abort + Wait>(rt: &R, alloc: Global, rows: &[Row]) -> Result<(), Fail> {
    for &(asked, operands, names, want) in rows {
        let operation = Operation {
            asked,
            operands,
            names,
        };
        for way in WAYS {
            let text = printed_bound(rt, alloc, operation, way)?;
            assert!(rt;
                text.as_slice() == want.as_bytes(),
                "{way:?} {asked:?}: {want}"
            );
        }
    }
    Ok(())
}

#[test]
fn members_of_objects(rt: HostRuntime) -> Result<(), Fail> {
    expect_rows(&rt, rt.alloc(), &MEMBERS)
}

#[test]
fn keys_of_objects(rt: HostRuntime) -> Result<(), Fail> {
    expect_rows(&rt, rt.alloc(), &KEYS)
}

#[test]
fn members_and_indexes_of_values(rt: HostRuntime) -> Result<(), Fail> {
    expect_rows(&rt, rt.alloc(), &VALUES)
}
