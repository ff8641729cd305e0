//! One object, and actions on it whose answers were worked out by hand.
ghost use Rattle.std.specs.Prelude.{◌≡◌};
ghost use Rattle.expando_class.specs.Pass.{IsPassOf};
ghost use Rattle.object_history.specs.Rows.{table_of, tag_of};

use super::actions::{Action, Answer, answer_of};
use super::operate::{Refused, operate};
use crate::{EntryHead, ObjectRow};
use dyn_value::{Entry, Outcome, Value};
use expando_class::{ClassPass, ClassTable};
use standard_binders::Binder;
use std::alloc::{AllocError, Global};
use std::sync::Wait;

/// The number of the pass of all entries.
const PASS: u32 = 3;

/// An action on the member of a name, and what it has to give.
#[derive(Clone, Copy, Debug)]
pub(super) struct Case {
    pub(super) action: Action,
    pub(super) name: u16,
    pub(super) answer: Answer,
}

/// A case for each action: one name alone first, then 64 names that fill the object, and then one more.
pub(super) fn script(alloc: Global) -> Result<Vec<Case>, AllocError> {
    let alone = [
        (Action::Get, 0, Answer::NoMember),
        (Action::Delete, 0, Answer::NoMember),
        (Action::Set(1), 0, Answer::Nil),
        (Action::Get, 0, Answer::Number(1)),
        (Action::Set(2), 0, Answer::Nil),
        (Action::Get, 0, Answer::Number(2)),
        (Action::Delete, 0, Answer::Nil),
        (Action::Get, 0, Answer::NoMember),
    ];
    let full = [
        (Action::Set(7), 64, Answer::MembersFull),
        (Action::Get, 64, Answer::NoMember),
        (Action::Set(-5), 5, Answer::Nil),
        (Action::Get, 5, Answer::Number(-5)),
        (Action::Delete, 0, Answer::Nil),
        (Action::Set(7), 64, Answer::Nil),
        (Action::Get, 64, Answer::Number(7)),
        (Action::Get, 63, Answer::Number(63)),
        (Action::Delete, 0, Answer::NoMember),
    ];
    let mut cases = Vec::new(alloc);
    for (action, name, answer) in alone {
        cases.push(Case {
            action,
            name,
            answer,
        })?;
    }
    for name in 0..64u16 {
        cases.push(Case {
            action: Action::Set(i64::from(name)),
            name,
            answer: Answer::Nil,
        })?;
    }
    for (action, name, answer) in full {
        cases.push(Case {
            action,
            name,
            answer,
        })?;
    }
    Ok(cases)
}

/// The outcome of each case's action, in order, by tasks of the numbers from 0 on.
pub(super) fn play<R: Wait>(
    rt: &R,
    alloc: Global,
    table: &ClassTable,
    classes: &mut ClassPass,
    binders: &[Binder],
    row: &mut ObjectRow<'_>,
    cases: &[Case],
) -> Result<Vec<Outcome>, Refused>
    requires own { IsPassOf table.now classes.old }
    requires table { table_of row.old ≡ table.now }
    requires binders { (tag_of row.old).binders.now ≡ binders.now }
    ensures table { table_of row.new ≡ table_of row.old }
{
    let mut outcomes = Vec::new(alloc);
    for (number, case) in cases.iter().enumerate() {
        let Ok(task) = u32::try_from(number) else {
            return Err(Refused::Operation);
        };
        let head = EntryHead {
            pass: PASS,
            task,
            binder: case.action.binder(case.name),
        };
        let value = case.action.value();
        let outcome = operate(rt, alloc, table, classes, binders, row, head, value)?;
        let Ok(()) = outcomes.push(outcome) else {
            return Err(Refused::Memory);
        };
    }
    Ok(outcomes)
}

/// Whether the entry is that of the case of this number.
pub(super) fn is_entry(number: usize, case: &Case, entry: &Entry) -> bool {
    entry.pass == PASS
        && entry.task as usize == number
        && entry.binder == case.action.binder(case.name)
        && is_written(case.action.value(), entry.operands.as_slice())
        && answer_of(&entry.outcome) == Some(case.answer)
}

/// Whether the operands are the value that is written, or none.
pub(super) fn is_written(value: Option<i64>, operands: &[Value]) -> bool {
    match (value, operands) {
        (None, []) => true,
        (Some(value), [Value::Int(number)]) => *number == value,
        _ => false,
    }
}

/// Whether the object has the members that the script leaves: `m1` to `m64`, each with its number, but for two.
pub(super) fn are_left(
    alloc: Global,
    table: &ClassTable,
    row: &ObjectRow<'_>,
) -> Result<bool, AllocError>
    requires { table_of row.now ≡ table.now }
{
    let state = row.state();
    let class = state.class();
    if table.size(class) != 64 {
        return Ok(false);
    }
    for place in 0..64u16 {
        let number = place + 1;
        let name = format!(in alloc; "m{number}")?;
        if table.name_at(class, place) != name.as_str() || !has_value(state.read(place), number) {
            return Ok(false);
        }
    }
    Ok(true)
}

/// Whether it is the value that the script leaves to the member of this number.
fn has_value(value: &Value, number: u16) -> bool {
    let want = match number {
        5 => -5,
        64 => 7,
        _ => i64::from(number),
    };
    matches!(value, Value::Int(number) if *number == want)
}
