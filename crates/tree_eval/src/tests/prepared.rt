//! Bodies over states: each form of answer once, and an object that gains, changes and loses members.
ghost use Rattle.std.specs.Prelude.{◌≡◌, ℕ, List, [], ◌∷◌, IsTrue, IfOk, None, pos, unwrap_or};
ghost use Rattle.dyn_value.specs.declared.value.Value.TheVariants.{Int};
ghost use Rattle.expr_tree.specs.Meanings.{IsThere};
ghost use Rattle.expr_tree.specs.Trees.{answers, fits};
ghost use Rattle.expando_object.specs.State.{class_in, names_in, values_in};
ghost use Rattle.tree_eval.specs.States.{IsClassAfter};

use super::printed;
use crate::{Prepared, eval};
use dyn_value::{BinOp, Fault, Kind, Outcome, UnOp, Value};
use expando_class::{ClassRef, ClassTable};
use expando_object::ObjState;
use expr_tree::{Body, Node};
use std::alloc::Global;
use std::sync::Wait;
use std::test::Fail;
use std::thread;

/// What the body of this node answers of the one operand; the state is then the one after it.
fn answered(
    alloc: Global,
    node: Node,
    operand: i64,
    state: &mut ObjState,
    after: Option<ClassRef>,
) -> Result<Vec<u8>, Fail>
    requires answers { IsTrue (answers node) }
    requires fits { IsTrue (fits 0 node) }
    requires there { IsThere (Int operand ∷ []) (values_in state.old) node }
    requires after { IsClassAfter after (names_in state.old) node }
    ensures { IfOk result (λ _. class_in state.new ≡ unwrap_or after (class_in state.old)) }
{
    let body = Body::single(alloc, node)?;
    let operands = [Value::Int(operand)];
    let prepared = Prepared::make(alloc, &body, operands.as_slice(), state)?;
    let kept = printed(alloc, prepared.outcome())?;
    let outcome = eval(&body, prepared, state, after);
    let out = printed(alloc, &outcome)?;
    if out.as_slice() != kept.as_slice() {
        Err("another outcome than was prepared")?;
    }
    Ok(out)
}

/// A state with x 1 and y 2.
fn of_two(alloc: Global, rt: &impl Wait) -> Result<ObjState, Fail>
    ensures { IfOk result (λ state. values_in state ≡ Int (pos 1) ∷ Int (pos 2) ∷ []) }
{
    let table = ClassTable::new(alloc)?;
    let mut pass = table.pass(alloc)?;
    let root = table.root();
    let x = table.add(rt, &mut pass, &root, "x")?;
    let None = table.place_of(&x, "y") else {
        return Err("the class has the name already".into());
    };
    let xy = table.add(rt, &mut pass, &x, "y")?;
    let mut state = ObjState::new(alloc, root);
    state.reserve()?;
    state.append(x, Value::Int(1));
    state.reserve()?;
    state.append(xy, Value::Int(2));
    Ok(state)
}

/// Over x 1, y 2 and the operand 7 the body of this node answers what is wanted, and leaves these two values.
fn gives(
    alloc: Global,
    rt: &impl Wait,
    node: Node,
    want: &str,
    first: i64,
    second: i64,
) -> Result<bool, Fail>
    requires answers { IsTrue (answers node) }
    requires fits { IsTrue (fits 0 node) }
    requires there { IsThere (Int (pos 7) ∷ []) (Int (pos 1) ∷ Int (pos 2) ∷ []) node }
    requires after { (names : List (List ℕ)) → IsClassAfter None names node }
{
    let mut state = of_two(alloc, rt)?;
    let _class = state.class();
    let answer = answered(alloc, node, 7, &mut state, None)?;
    let _class = state.class();
    Ok(
        answer.as_slice() == want.as_bytes()
            && state.read(0).same(&Value::Int(first))
            && state.read(1).same(&Value::Int(second)),
    )
}

#[test]
fn bodies_that_read_and_write(rt: HostRuntime) -> Result<(), Fail> {
    let alloc = rt.alloc();
    assert!(rt; gives(alloc, &rt, Node::Read(0), "1", 1, 2)?);
    assert!(rt; gives(alloc, &rt, Node::Read(1), "2", 1, 2)?);
    assert!(rt; gives(alloc, &rt, Node::Write(0, 0), "nil", 7, 2)?);
    assert!(rt; gives(alloc, &rt, Node::Write(1, 0), "nil", 1, 7)?);
    Ok(())
}

#[test]
fn bodies_that_touch_no_member(rt: HostRuntime) -> Result<(), Fail> {
    let alloc = rt.alloc();
    assert!(rt; gives(alloc, &rt, Node::Param(0), "7", 1, 2)?);
    assert!(rt; gives(alloc, &rt, Node::Const(Value::Int(3)), "3", 1, 2)?);
    assert!(rt; gives(alloc, &rt, Node::Unary(UnOp::Negate, 0), "-7", 1, 2)?);
    assert!(rt; gives(alloc, &rt, Node::Binary(BinOp::Add, 0, 0), "14", 1, 2)?);
    assert!(rt; gives(alloc, &rt, Node::Convert(Kind::Text, 0), "\"7\"", 1, 2)?);
    assert!(rt; gives(alloc, &rt, Node::Length(0), "NoOperator", 1, 2)?);
    assert!(rt; gives(alloc, &rt, Node::CharAt(0, 0), "NoOperator", 1, 2)?);
    assert!(rt; gives(alloc, &rt, Node::Call(3), "call 3", 1, 2)?);
    assert!(rt; gives(alloc, &rt, Node::Make(3), "make 3", 1, 2)?);
    assert!(rt; gives(alloc, &rt, Node::Throw(Fault::NoIndex), "NoIndex", 1, 2)?);
    Ok(())
}

#[test]
fn members_come_and_go(rt: HostRuntime) -> Result<(), Fail> {
    let alloc = rt.alloc();
    let table = ClassTable::new(alloc)?;
    let mut pass = table.pass(alloc)?;
    let root = table.root();
    let x = table.add(&rt, &mut pass, &root, "x")?;
    let None = table.place_of(&x, "y") else {
        return Err("the class has the name already".into());
    };
    let xy = table.add(&rt, &mut pass, &x, "y")?;
    let y = table.remove(&rt, &mut pass, &xy, 0)?;
    let mut state = ObjState::new(alloc, root);

    let add_x = Node::Append(x.number(), 0);
    assert!(rt; answered(alloc, add_x, 1, &mut state, Some(x))?.as_slice() == b"nil".as_slice());
    let add_y = Node::Append(xy.number(), 0);
    assert!(rt; answered(alloc, add_y, 2, &mut state, Some(xy))?.as_slice() == b"nil".as_slice());
    let _class = state.class();
    let remove_x = Node::Remove(0, y.number());
    assert!(rt; answered(alloc, remove_x, 0, &mut state, Some(y))?.as_slice() == b"nil".as_slice());

    assert_eq!(rt; table.size(state.class()), 1);
    assert_eq!(rt; table.name_at(state.class(), 0), "y");
    assert!(rt; answered(alloc, Node::Read(0), 0, &mut state, None)?.as_slice() == b"2".as_slice());
    Ok(())
}

/// What was prepared and the state are read by two threads at once, and move into one, which writes.
#[test]
fn bodies_between_threads(rt: HostRuntime) -> Result<(), Fail> {
    let alloc = rt.alloc();
    let mut state = of_two(alloc, &rt)?;
    let _class = state.class();
    let body = Body::single(alloc, Node::Write(0, 0))?;
    let operands = [Value::Int(7)];
    let prepared = Prepared::make(alloc, &body, operands.as_slice(), &mut state)?;
    let nil = Outcome::Value(Value::Nil);
    let (one, other) = thread::join(
        &rt,
        || prepared.outcome().same(&nil) && state.class().number() == 2,
        || prepared.outcome().same(&nil) && state.class().number() == 2,
    );
    assert!(rt; one && other);
    let (answer, _) = thread::join(&rt, move || eval(&body, prepared, &mut state, None), || ());
    assert!(rt; answer.same(&nil));
    Ok(())
}
