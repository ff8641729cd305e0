//! That room is made where memory is left, an object's whole life, and that threads hand states on and share them.
ghost use Rattle.std.specs.Prelude.{◌≡◌, ◌<◌, length, IfOk};
ghost use Rattle.expando_object.specs.State.{names_in};

use crate::ObjState;
use dyn_value::Value;
use expando_class::ClassTable;
use std::alloc::{AllocError, Global};
use std::sync::Wait;
use std::test::Fail;
use std::thread;

// An object whose one member has this value.
fn with_member(rt: &impl Wait, alloc: Global, value: Value) -> Result<ObjState, AllocError>
    ensures { IfOk result (λ state. length (names_in state) ≡ 1) }
{
    let table = ClassTable::new(alloc)?;
    let mut pass = table.pass(alloc)?;
    let x = table.add(rt, &mut pass, &table.root(), "x")?;
    let mut state = ObjState::new(alloc, table.root());
    state.reserve()?;
    state.append(x, value);
    Ok(state)
}

// The object with this value in the place of its first.
fn with_first(mut state: ObjState, value: Value) -> ObjState
    requires { 0 < length (names_in state) }
    ensures { names_in result ≡ names_in state }
{
    state.write(0, value);
    state
}

// Whether the first value of the object is this number.
fn begins_with(state: &ObjState, number: i64) -> bool
    requires { 0 < length (names_in state.now) }
{
    state.read(0).same(&Value::Int(number))
}

#[test]
fn members_are_added_written_read_and_removed(rt: HostRuntime) -> Result<(), Fail> {
    let table = ClassTable::new(rt.alloc())?;
    let mut pass = table.pass(rt.alloc())?;
    let root = table.root();
    let x = table.add(&rt, &mut pass, &root, "x")?;
    let None = table.place_of(&x, "y") else {
        return Err("the class has the name already".into());
    };
    let xy = table.add(&rt, &mut pass, &x, "y")?;
    let y = table.remove(&rt, &mut pass, &xy, 0)?;
    let mut state = ObjState::new(rt.alloc(), root);

    assert!(rt; state.reserve().is_ok());
    state.append(x, Value::Int(3));
    assert!(rt; state.reserve().is_ok());
    state.append(xy, Value::Int(2));
    assert!(rt; state.write(0, Value::Int(1)).same(&Value::Int(3)));
    assert!(rt; state.read(0).same(&Value::Int(1)) && state.read(1).same(&Value::Int(2)));
    assert_eq!(rt; state.class().number(), 2);

    assert!(rt; state.remove(0, y).same(&Value::Int(1)));
    assert_eq!(rt; table.size(state.class()), 1);
    assert_eq!(rt; table.name_at(state.class(), 0), "y");
    assert!(rt; state.read(0).same(&Value::Int(2)));
    Ok(())
}

#[test]
fn a_thread_takes_a_state_and_two_share_one(rt: HostRuntime) -> Result<(), Fail> {
    let moved = with_member(&rt, rt.alloc(), Value::Int(1))?;
    let shared = with_member(&rt, rt.alloc(), Value::Int(2))?;
    let lent = &shared;
    let ((written, here), there) = thread::join(
        &rt,
        move || (with_first(moved, Value::Int(3)), begins_with(lent, 2)),
        || begins_with(lent, 2),
    );
    assert!(rt; here && there && begins_with(&written, 3));
    Ok(())
}
