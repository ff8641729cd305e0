//! Two threads whose operations on two objects are bound at once: each is in the engine's language until the other is
//! there too.
ghost use Rattle.dlr_engine.specs.Engines.{run_of};
ghost use Rattle.dlr_engine.specs.Passes.{IsPassOf};

use super::asking::{Refused, ask, program_of};
use super::meeting_language::{Marks, MeetingLanguage};
use super::pairs::two_of;
use crate::{Answer, Engine, Level, Pass};
use dyn_value::{Outcome, Value};
use fallback::Script;
use script_program::Program;
use std::alloc::Global;
use std::sync::Wait;
use std::test::Fail;
use std::thread;
use std::thread::Threads;

/// A script that sets one member of each of two objects.
const TWO_SETS: &[u8] = b"shared s; shared u; task a { s.x = 1; u.y = 2; }";

/// A thread that sets the member of one object, at the site of the object's number, to this value.
#[derive(Drop)]
struct Setter<'e, 'p, 'm, R> {
    rt: &'e R,
    alloc: Global,
    engine: &'e Engine<'p, MeetingLanguage<'m>>,
    pass: Pass<'p>,
    object: u32,
    value: i64,
}

#[test]
fn two_threads_bind_at_once(rt: HostRuntime) -> Result<(), Fail> {
    let alloc = rt.alloc();
    let program = program_of(alloc, TWO_SETS)?;
    let marks = Marks::new();
    let answered = answered_beside(&rt, alloc, &program, &marks)?;
    assert!(rt; answered == (true, true));
    assert!(rt; marks.have_met());
    Ok(())
}

/// Whether each of two threads is answered as it has to be.
fn answered_beside<R: Threads + Wait + Sync>(
    rt: &R,
    alloc: Global,
    program: &Program,
    marks: &Marks,
) -> Result<(bool, bool), Refused> {
    let script = Script::make(program.fun_table(alloc)?);
    let lang = MeetingLanguage { script, marks };
    let (engine, passes) = Engine::start(alloc, program, lang, 0, 2)?;
    let (first, second) = two_of(&engine, passes);
    let first = Setter {
        rt,
        alloc,
        engine: &engine,
        pass: first,
        object: 0,
        value: 1,
    };
    let second = Setter {
        rt,
        alloc,
        engine: &engine,
        pass: second,
        object: 1,
        value: 2,
    };
    Ok(set_beside(rt, first, second))
}

/// Whether each is answered as it has to be, in a thread of its own.
fn set_beside<'e, 'p, 'm, R: Threads + Wait + Sync>(
    rt: &R,
    first: Setter<'e, 'p, 'm, R>,
    second: Setter<'e, 'p, 'm, R>,
) -> (bool, bool)
    requires first { IsPassOf (run_of first.engine.now) first.pass }
    requires second { IsPassOf (run_of second.engine.now) second.pass }
{
    thread::join(rt, move || is_set(first), move || is_set(second))
}

/// Sets the member, and says whether it is answered as it has to be.
fn is_set<R: Wait>(setter: Setter<'_, '_, '_, R>) -> bool
    requires { IsPassOf (run_of setter.engine.now) setter.pass }
{
    let Setter {
        rt,
        alloc,
        engine,
        mut pass,
        object,
        value,
    } = setter;
    let task = pass.number();
    let operands = [Value::Obj(object), Value::Int(value)];
    match ask(rt, alloc, engine, &mut pass, task, object, &operands) {
        Ok(answer) => is_first_entry(&answer, object),
        Err(_) => false,
    }
}

/// Whether it is the answer to the object's first operation, which sets a member.
fn is_first_entry(answer: &Answer, object: u32) -> bool {
    let is_nil = matches!(answer.outcome, Outcome::Value(Value::Nil));
    let is_bound = matches!(answer.level, Level::Bind);
    let is_placed = match answer.row {
        Some(row) => row == object && answer.place == 0,
        None => false,
    };
    is_nil && is_bound && is_placed
}
