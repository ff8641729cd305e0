//! Threads that operate on one object of one engine, each with a pass of its own.
ghost use Rattle.std.specs.Prelude.{◌≡◌};
ghost use Rattle.dlr_engine.specs.Engines.{run_of};
ghost use Rattle.dlr_engine.specs.Passes.{number_of, IsPassOf, IsSamePass};

use super::asking::ask;
use crate::{Engine, Pass};
use dyn_value::{Entry, Fault, Outcome, Value};
use fallback::Script;
use std::alloc::Global;
use std::sync::Wait;
use std::thread;
use std::thread::Threads;

/// A script with a site for each operation that the threads ask for.
pub(super) const SHARING: &[u8] = b"shared o; task t { o.x = 1; print o.x; delete o.x; }";

/// How many operations each thread asks for.
pub(super) const OPERATIONS: u32 = 300;

/// The part of one thread: an engine, and the pass that operates there.
#[derive(Drop)]
pub(super) struct Shift<'e, 'p, R> {
    pub(super) rt: &'e R,
    pub(super) alloc: Global,
    pub(super) engine: &'e Engine<'p, Script>,
    pub(super) pass: Pass<'p>,
}

/// Sets, reads and removes the member of the first object in turn; the number of the task is that of the pass.
fn work<'p, R: Wait>(shift: Shift<'_, 'p, R>) -> Pass<'p>
    requires own { IsPassOf (run_of shift.engine.now) shift.pass }
    ensures own { IsPassOf (run_of shift.entry.engine.now) result }
    ensures same { IsSamePass shift.entry.pass result }
{
    let Shift {
        rt,
        alloc,
        engine,
        mut pass,
    } = shift;
    let task = pass.number();
    for number in 0..OPERATIONS {
        let write = [Value::Obj(0), Value::Int(i64::from(number))];
        let site = number % 3;
        let operands = if site == 0 { &write[..] } else { &write[..1] };
        // Where one is refused, the journal is too short in the end.
        let _answer = ask(rt, alloc, engine, &mut pass, task, site, operands);
    }
    pass
}

/// What two passes are after their operations, each in a thread of its own.
pub(super) fn work_beside<'e, 'p, R: Threads + Wait + Sync>(
    rt: &R,
    first: Shift<'e, 'p, R>,
    second: Shift<'e, 'p, R>,
) -> (Pass<'p>, Pass<'p>)
    requires first { IsPassOf (run_of first.engine.now) first.pass }
    requires second { IsPassOf (run_of second.engine.now) second.pass }
    ensures first { IsPassOf (run_of first.entry.engine.now) result.0 × IsSamePass first.entry.pass result.0 }
    ensures second { IsPassOf (run_of second.entry.engine.now) result.1 × IsSamePass second.entry.pass result.1 }
{
    thread::join(rt, move || work(first), move || work(second))
}

/// How many entries of a journal, from the first on, say what a value gives that is set, read and removed.
pub(super) fn replayed(journal: &[Entry]) -> usize {
    let mut member = None;
    for (number, entry) in journal.iter().enumerate() {
        let answered = match (entry.binder, entry.operands.as_slice()) {
            (0, [Value::Int(value)]) => {
                member = Some(*value);
                is_nil(&entry.outcome)
            }
            (1, []) => is_member(member, &entry.outcome),
            (2, []) => match member.take() {
                Some(_) => is_nil(&entry.outcome),
                None => is_member(None, &entry.outcome),
            },
            _ => false,
        };
        if !answered {
            return number;
        }
    }
    journal.len()
}

/// Whether it is no value.
fn is_nil(outcome: &Outcome) -> bool {
    matches!(outcome, Outcome::Value(Value::Nil))
}

/// Whether it is the member's value, or the fault of there being none.
fn is_member(member: Option<i64>, outcome: &Outcome) -> bool {
    match (member, outcome) {
        (Some(value), Outcome::Value(Value::Int(found))) => *found == value,
        (None, Outcome::Fault(Fault::NoMember(name))) => name.as_str() == "x",
        _ => false,
    }
}

/// Whether the entries of a pass are the operations that it asked for, in their order.
pub(super) fn is_in_order(journal: &[Entry], pass: u32) -> bool {
    let mut number = 0;
    for entry in journal {
        if entry.pass == pass {
            if !is_asked(entry, pass, number) {
                return false;
            }
            number = number.wrapping_add(1);
        }
    }
    number == OPERATIONS
}

/// Whether the entry is of the operation with this number.
fn is_asked(entry: &Entry, task: u32, number: u32) -> bool {
    let is_operation = match entry.operands.as_slice() {
        [Value::Int(value)] => *value == i64::from(number),
        [] => number % 3 != 0,
        _ => false,
    };
    is_operation && entry.task == task && entry.binder == number % 3
}
