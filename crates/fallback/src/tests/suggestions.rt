//! What is chosen of the language's own bound and a suggested one; expected texts are worked out by hand.
ghost use Rattle.std.specs.Prelude.{IfOk, List};
ghost use Rattle.expando_class.specs.declared.pass.ClassPass.{ClassPass};
ghost use Rattle.standard_binders.specs.Functions.{Functions};
ghost use Rattle.meta_object.specs.declared.meta.MetaObject.{MetaObject};
ghost use Rattle.meta_object.specs.Bindings.{IsSoundFor};

use crate::script::answer;
use crate::tests::bindings::{class_of, printed};
use crate::tests::metas::metas_for;
use crate::tests::operation::{Operand, script, values};
use dyn_value::{Fault, Kind, Value};
use expando_class::ClassTable;
use expr_tree::{Body, Node};
use meta_object::{BindContext, Bound, Language};
use restrictions::{Restriction, Restrictions};
use rule_model::Claim;
use standard_binders::Binder;
use std::alloc::{AllocError, Global};
use std::sync::Wait;
use std::test::Fail;

/// The bound of an object that answers the node of a short word.
fn of_object(alloc: Global, word: &str) -> Result<Bound, Fail> {
    let node = match word {
        "no index" => Node::Throw(Fault::NoIndex),
        "full" => Node::Throw(Fault::MembersFull),
        "call" => Node::Call(1),
        "nil" => Node::Const(Value::Nil),
        _ => Node::Read(0),
    };
    Ok(Bound {
        restrictions: Restrictions::kind(alloc, 0, Kind::Obj)?,
        body: Body::single(alloc, node)?,
        claim: Claim {
            class: None,
            fun: None,
        },
    })
}

#[test]
fn what_is_suggested_takes_the_place_of_a_fault(rt: HostRuntime) -> Result<(), Fail> {
    let alloc = rt.alloc();
    let cases = [
        ("read", "no index", "(kind 0 Obj) (read 0)"),
        ("no index", "read", "(kind 0 Obj) (read 0)"),
        ("no index", "full", "(kind 0 Obj) (throw MembersFull)"),
        ("call", "read", "(kind 0 Obj) (call 1)"),
        ("nil", "read", "(kind 0 Obj) (const nil)"),
    ];
    for (own, suggested, want) in cases {
        let chosen = answer(of_object(alloc, own)?, of_object(alloc, suggested)?);
        assert!(rt;
            printed(alloc, &chosen)?.as_slice() == want.as_bytes(),
            "{want}"
        );
    }
    Ok(())
}

/// A bound of the reads by a key of more than 64 bytes, which names no member.
fn long_key_bound(alloc: Global) -> Result<Bound, AllocError>
    ensures { IfOk result (λ bound. (functions : Functions) (pass : ClassPass) (metas : List MetaObject) →
        IsSoundFor functions pass Binder.GetIndex metas bound) }
{
    Ok(Bound {
        restrictions: Restrictions::kind(alloc, 0, Kind::Obj)?.and(Restriction::LongKey(1))?,
        body: Body::single(alloc, Node::Throw(Fault::NoIndex))?,
        claim: Claim {
            class: None,
            fun: None,
        },
    })
}

/// What is answered to a read by the key `x` of an object with these names, where that bound is suggested.
fn read_beside(rt: &impl Wait, alloc: Global, names: &[&str]) -> Result<Vec<u8>, Fail> {
    let table = ClassTable::new(alloc)?;
    let mut pass = table.pass(alloc)?;
    let class = class_of(rt, &table, &mut pass, names)?;
    let language = script(alloc)?;
    let binder = Binder::GetIndex;
    let operands = values(alloc, &[Operand::Obj, Operand::Text("x")])?;
    let functions = &language.functions;
    let metas = metas_for(alloc, functions, &table, &pass, &binder, &operands, &class)?;
    let suggested = long_key_bound(alloc)?;
    let mut cx = BindContext {
        table: &table,
        pass: &mut pass,
    };
    let bound = language.fallback_get_index(alloc, rt, &mut cx, &binder, &metas, Some(suggested))?;
    printed(alloc, &bound)
}

#[test]
fn by_key_the_language_goes_first(rt: HostRuntime) -> Result<(), Fail> {
    let alloc = rt.alloc();
    let own = "(and (and (kind 0 Obj) (class 1)) (key 1 \"x\")) (read 0)";
    let suggested = "(and (kind 0 Obj) (long 1)) (throw NoIndex)";
    assert!(rt; read_beside(&rt, alloc, &["x"])?.as_slice() == own.as_bytes());
    assert!(rt; read_beside(&rt, alloc, &["y"])?.as_slice() == suggested.as_bytes());
    Ok(())
}
