//! Members as a plain list of the numbers of their names and their values.
ghost use Rattle.std.specs.Prelude.{◌<◌, IfSome, length};

use super::actions::{Action, Answer, answer_of};
use dyn_value::{Entry, Value};
use std::alloc::{AllocError, Global};

/// The most members of an object.
const MOST_MEMBERS: usize = 64;

/// A name's number, and the value of the member.
#[derive(Clone, Copy, Debug)]
struct Pair {
    name: u32,
    value: i64,
}

/// How many entries of a journal, from the first on, say what a plain list gives.
pub(super) fn replayed(alloc: Global, journal: &[Entry]) -> Result<usize, AllocError> {
    let mut pairs = Vec::new(alloc);
    for (number, entry) in journal.iter().enumerate() {
        let Some((action, name)) = action_of(entry) else {
            return Ok(number);
        };
        let answer = apply(&mut pairs, action, name)?;
        if answer_of(&entry.outcome) != Some(answer) {
            return Ok(number);
        }
    }
    Ok(journal.len())
}

/// The action of an entry, and the number of the name.
fn action_of(entry: &Entry) -> Option<(Action, u32)> {
    let action = match (entry.binder % 3, entry.operands.as_slice()) {
        (0, []) => Action::Get,
        (1, [Value::Int(value)]) => Action::Set(*value),
        (2, []) => Action::Delete,
        _ => return None,
    };
    Some((action, entry.binder / 3))
}

/// What the action gives, and does to the list.
fn apply(pairs: &mut Vec<Pair>, action: Action, name: u32) -> Result<Answer, AllocError> {
    Ok(match (action, place_of(pairs, name)) {
        (Action::Get, Some(place)) => Answer::Number(pairs[place].value),
        (Action::Set(value), Some(place)) => {
            pairs[place].value = value;
            Answer::Nil
        }
        (Action::Set(_), None) if pairs.len() >= MOST_MEMBERS => Answer::MembersFull,
        (Action::Set(value), None) => {
            pairs.push(Pair { name, value })?;
            Answer::Nil
        }
        (Action::Delete, Some(place)) => {
            pairs.remove(place);
            Answer::Nil
        }
        (Action::Get | Action::Delete, None) => Answer::NoMember,
    })
}

/// Where the member of a name stands.
fn place_of(pairs: &[Pair], name: u32) -> Option<usize>
    ensures { IfSome result (λ place. place < length pairs.now) }
{
    pairs.iter().position(|pair| pair.name == name)
}
