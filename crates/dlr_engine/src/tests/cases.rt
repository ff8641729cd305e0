//! Operations of the passes of one engine, whose answers were worked out by hand.
ghost use Rattle.dlr_engine.specs.Engines.{run_of};
ghost use Rattle.dlr_engine.specs.Passes.{IsPassOf, IsSamePass};

use super::asking::{Refused, ask};
use crate::{Answer, Engine, Level, Pass};
use dyn_value::{Entry, Fault, Outcome, Value};
use fallback::Script;
use std::alloc::Global;
use std::sync::Wait;

/// The task of all operations.
pub(super) const TASK: u32 = 7;

/// What is asked for: of the first object's member `x`, of two numbers, or of the first function.
#[derive(Clone, Copy, Debug)]
pub(super) enum Action {
    Set(i64),
    Get,
    Delete,
    Add(i64, i64),
    Invoke(i64),
}

/// A form of outcome.
#[derive(Clone, Copy, Debug)]
pub(super) enum Want {
    Nil,
    Number(i64),
    Call(u32),
    NoMember,
}

/// A site, and the number of its binder.
#[derive(Clone, Copy, Debug)]
pub(super) struct Site {
    pub(super) number: u32,
    pub(super) binder: u32,
}

/// Which pass is asked, at which site and for what, what that has to give and at which level, and where its entry has
/// to stand.
#[derive(Clone, Copy, Debug)]
pub(super) struct Case {
    pass: u32,
    site: Site,
    action: Action,
    want: Want,
    level: Level,
    place: Option<u64>,
}

impl Case {
    /// Of an operation on the first object, whose entry has this place.
    pub(super) fn on_object(
        pass: u32,
        site: Site,
        action: Action,
        want: Want,
        level: Level,
        place: u64,
    ) -> Case {
        Case {
            pass,
            site,
            action,
            want,
            level,
            place: Some(place),
        }
    }

    /// Of an operation that looks at no object.
    pub(super) fn plain(pass: u32, site: Site, action: Action, want: Want, level: Level) -> Case {
        Case {
            pass,
            site,
            action,
            want,
            level,
            place: None,
        }
    }
}

/// Asks one pass for the operations of the cases, in order, and says whether each answer is the one that is wanted.
pub(super) fn play<'p, R: Wait>(
    rt: &R,
    alloc: Global,
    engine: &Engine<'p, Script>,
    pass: &mut Pass<'p>,
    cases: &[Case],
) -> Result<bool, Refused>
    requires own { IsPassOf (run_of engine.now) pass.old }
    ensures own { IsPassOf (run_of engine.now) pass.new }
    ensures same { IsSamePass pass.old pass.new }
{
    for case in cases {
        if !is_answered(rt, alloc, engine, pass, case)? {
            return Ok(false);
        }
    }
    Ok(true)
}

/// Asks two passes, each for its own cases, in the order of all, and says whether each answer is the one that is
/// wanted.
pub(super) fn play_two<'p, R: Wait>(
    rt: &R,
    alloc: Global,
    engine: &Engine<'p, Script>,
    first: &mut Pass<'p>,
    second: &mut Pass<'p>,
    cases: &[Case],
) -> Result<bool, Refused>
    requires first { IsPassOf (run_of engine.now) first.old }
    requires second { IsPassOf (run_of engine.now) second.old }
    ensures first { IsPassOf (run_of engine.now) first.new × IsSamePass first.old first.new }
    ensures second { IsPassOf (run_of engine.now) second.new × IsSamePass second.old second.new }
{
    for case in cases {
        let answered = if case.pass == 0 {
            is_answered(rt, alloc, engine, first, case)?
        } else {
            is_answered(rt, alloc, engine, second, case)?
        };
        if !answered {
            return Ok(false);
        }
    }
    Ok(true)
}

/// Whether the pass answers the operation of the case as it has to.
fn is_answered<'p, R: Wait>(
    rt: &R,
    alloc: Global,
    engine: &Engine<'p, Script>,
    pass: &mut Pass<'p>,
    case: &Case,
) -> Result<bool, Refused>
    requires own { IsPassOf (run_of engine.now) pass.old }
    ensures own { IsPassOf (run_of engine.now) pass.new }
    ensures same { IsSamePass pass.old pass.new }
{
    let answer = answer_to(rt, alloc, engine, pass, case.site.number, case.action)?;
    Ok(is_answer(case, &answer))
}

/// The answer to the action at a site.
fn answer_to<'p, R: Wait>(
    rt: &R,
    alloc: Global,
    engine: &Engine<'p, Script>,
    pass: &mut Pass<'p>,
    site: u32,
    action: Action,
) -> Result<Answer, Refused>
    requires own { IsPassOf (run_of engine.now) pass.old }
    ensures own { IsPassOf (run_of engine.now) pass.new }
    ensures same { IsSamePass pass.old pass.new }
{
    let target = [Value::Obj(0)];
    let pair = match action {
        Action::Get | Action::Delete => {
            return ask(rt, alloc, engine, pass, TASK, site, &target);
        }
        Action::Set(value) => [Value::Obj(0), Value::Int(value)],
        Action::Add(left, right) => [Value::Int(left), Value::Int(right)],
        Action::Invoke(argument) => [Value::Fun(0), Value::Int(argument)],
    };
    ask(rt, alloc, engine, pass, TASK, site, &pair)
}

/// Whether it is the case's answer.
fn is_answer(case: &Case, answer: &Answer) -> bool {
    let is_placed = match (case.place, answer.row) {
        (Some(place), Some(0)) => answer.place == place,
        (None, None) => answer.place == 0,
        _ => false,
    };
    is_placed && is_level(case.level, answer.level) && is_outcome(case.want, &answer.outcome)
}

/// Whether both are the level of the binder, or both that of binding.
fn is_level(want: Level, found: Level) -> bool {
    matches!(
        (want, found),
        (Level::Binder, Level::Binder) | (Level::Bind, Level::Bind)
    )
}

/// Whether these are the entries of the cases that are on the object.
pub(super) fn is_history(cases: &[Case], entries: &[Entry]) -> bool {
    let mut rest = entries;
    for case in cases {
        if case.place.is_some() {
            match rest {
                [entry, more @ ..] if is_entry(case, entry) => rest = more,
                _ => return false,
            }
        }
    }
    rest.is_empty()
}

/// Whether the entry is that of the case.
fn is_entry(case: &Case, entry: &Entry) -> bool {
    entry.pass == case.pass
        && entry.task == TASK
        && entry.binder == case.site.binder
        && are_arguments(case.action, entry.operands.as_slice())
        && is_outcome(case.want, &entry.outcome)
}

/// Whether these are the operands after the target.
fn are_arguments(action: Action, arguments: &[Value]) -> bool {
    match (action, arguments) {
        (Action::Get | Action::Delete, []) => true,
        (Action::Set(value), [Value::Int(found)]) => *found == value,
        _ => false,
    }
}

/// Whether the outcome has the form. The one member of which there is a fault is `x`.
fn is_outcome(want: Want, outcome: &Outcome) -> bool {
    match (want, outcome) {
        (Want::Nil, Outcome::Value(Value::Nil)) => true,
        (Want::Number(number), Outcome::Value(Value::Int(found))) => *found == number,
        (Want::Call(function), Outcome::Call(found)) => *found == function,
        (Want::NoMember, Outcome::Fault(Fault::NoMember(name))) => name.as_str() == "x",
        _ => false,
    }
}
