//! What is bound where a function is called or makes an object; expected texts are worked out by hand.
use crate::tests::bindings::{WAYS, printed_bound};
use crate::tests::operation::Asked::{Create, Invoke};
use crate::tests::operation::Operand::{Fun, Int};
use crate::tests::operation::{Asked, Operation};
use std::alloc::Global;
use std::process::Abort;
use std::sync::Wait;
use std::test::Fail;

/// Calls and creations: what is asked, the number of the function that is the target, and the text of the body. Of the
/// functions 0 has no parameter, 1 has `a`, 2 has `a` and `b`, 3 has `a`, `b` and `c`, and 4 has `p0` to `p15`.
static CALLS: [(Asked, u32, &str); 41] = [
    (Invoke(0, &[]), 0, "(call 0)"),
    (Invoke(1, &[]), 1, "(call 1)"),
    (Invoke(2, &[]), 2, "(call 2)"),
    (Invoke(16, &[]), 4, "(call 4)"),
    (Invoke(1, &[]), 0, "(throw WrongCount 0 1)"),
    (Invoke(1, &[]), 2, "(throw WrongCount 2 1)"),
    (Invoke(3, &[]), 2, "(throw WrongCount 2 3)"),
    (Invoke(16, &[]), 3, "(throw WrongCount 3 16)"),
    (Invoke(1, &["b"]), 2, "(throw WrongCount 2 1)"),
    (Invoke(3, &["c"]), 2, "(throw WrongCount 2 3)"),
    (Invoke(1, &["a"]), 1, "(call 1)"),
    (Invoke(2, &["b"]), 2, "(call 2)"),
    (Invoke(2, &["a", "b"]), 2, "(call 2)"),
    (Invoke(2, &["b", "a"]), 2, "(call 2)"),
    (Invoke(3, &["c", "b"]), 3, "(call 3)"),
    (Invoke(3, &["b", "c", "a"]), 3, "(call 3)"),
    (Invoke(16, &["p15", "p14"]), 4, "(call 4)"),
    (Invoke(1, &["b"]), 1, "(throw NoParameter \"b\")"),
    (Invoke(2, &["a"]), 2, "(throw NoParameter \"a\")"),
    (Invoke(2, &["c"]), 2, "(throw NoParameter \"c\")"),
    (Invoke(2, &["b", "c"]), 2, "(throw NoParameter \"c\")"),
    (Invoke(2, &["d", "c"]), 2, "(throw NoParameter \"d\")"),
    (Invoke(3, &["b", "a"]), 3, "(throw NoParameter \"a\")"),
    (Invoke(3, &["a", "b"]), 3, "(throw NoParameter \"a\")"),
    (Invoke(16, &["p15", "p0"]), 4, "(throw NoParameter \"p0\")"),
    (Create(0, &[]), 1, "(make 1)"),
    (Create(1, &[]), 2, "(make 2)"),
    (Create(15, &[]), 4, "(make 4)"),
    (Create(0, &[]), 0, "(throw WrongCount 0 1)"),
    (Create(0, &[]), 2, "(throw WrongCount 2 1)"),
    (Create(2, &[]), 2, "(throw WrongCount 2 3)"),
    (Create(16, &[]), 4, "(throw WrongCount 16 17)"),
    (Create(2, &["b"]), 2, "(throw WrongCount 2 3)"),
    (Create(1, &["b"]), 2, "(make 2)"),
    (Create(2, &["b", "c"]), 3, "(make 3)"),
    (Create(2, &["c", "b"]), 3, "(make 3)"),
    (Create(15, &["p15", "p1"]), 4, "(throw NoParameter \"p1\")"),
    (Create(1, &["a"]), 2, "(throw NoParameter \"a\")"),
    (Create(1, &["c"]), 2, "(throw NoParameter \"c\")"),
    (Create(2, &["c", "a"]), 3, "(throw NoParameter \"a\")"),
    (Create(2, &["d", "e"]), 3, "(throw NoParameter \"d\")"),
];

/// That each is bound so, by the binding and by the fallback of its binder.
fn expect_call<R: Abort + Wait>(
    rt: &R,
    alloc: Global,
    asked: Asked,
    number: u32,
    body: &str,
) -> Result<(), Fail> {
    let count = match asked {
        Invoke(count, _) | Create(count, _) => count,
        _ => 0,
    };
    let mut operands = Vec::new(alloc);
    operands.push(Fun(number))?;
    for _ in 0..count {
        operands.push(Int)?;
    }
    let want = format!(in alloc; "(and (kind 0 Fun) (fun 0 {number})) {body}")?;
    for way in WAYS {
        let operation = Operation {
            asked,
            operands: &operands,
            names: &[],
        };
        let text = printed_bound(rt, alloc, operation, way)?;
        assert!(rt;
            text.as_slice() == want.as_bytes(),
            "{way:?} {asked:?}: {want}"
        );
    }
    Ok(())
}

#[test]
fn calls_and_creations(rt: HostRuntime) -> Result<(), Fail> {
    for &(asked, number, body) in &CALLS {
        expect_call(&rt, rt.alloc(), asked, number, body)?;
    }
    Ok(())
}
