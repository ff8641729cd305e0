//! Actions on members, their binders, and their answers in short.
use dyn_value::{DynText, Fault, Outcome, Value};
use standard_binders::Binder;
use std::alloc::Global;
use std::test::Fail;

/// What is done to a member.
#[derive(Clone, Copy, Debug, PartialEq, Eq)]
pub(super) enum Action {
    Get,
    Set(i64),
    Delete,
}

impl Action {
    /// The number of its binder on the member of a name, among those of `binders_of`.
    pub(super) fn binder(self, name: u16) -> u32 {
        let kind = match self {
            Action::Get => 0,
            Action::Set(_) => 1,
            Action::Delete => 2,
        };
        u32::from(name) * 3 + kind
    }

    /// The value that it writes.
    pub(super) fn value(self) -> Option<i64> {
        match self {
            Action::Set(value) => Some(value),
            Action::Get | Action::Delete => None,
        }
    }
}

/// What an action gives.
#[derive(Clone, Copy, Debug, PartialEq, Eq)]
pub(super) enum Answer {
    Number(i64),
    Nil,
    NoMember,
    MembersFull,
}

/// The answer that an outcome is.
pub(super) fn answer_of(outcome: &Outcome) -> Option<Answer> {
    match outcome {
        Outcome::Value(Value::Int(number)) => Some(Answer::Number(*number)),
        Outcome::Value(Value::Nil) => Some(Answer::Nil),
        Outcome::Fault(Fault::NoMember(_)) => Some(Answer::NoMember),
        Outcome::Fault(Fault::MembersFull) => Some(Answer::MembersFull),
        _ => None,
    }
}

/// The binders of three actions on the members of so many names: `m0`, `m1` and so on.
pub(super) fn binders_of(alloc: Global, names: u16) -> Result<Vec<Binder>, Fail> {
    let ignore_case = false;
    let mut binders = Vec::new(alloc);
    for number in 0..names {
        let text = format!(in alloc; "m{number}")?;
        let name = DynText::from_str(alloc, text.as_str())?.ok_or("too long")?;
        binders.push(Binder::GetMember {
            name: name.copy()?,
            ignore_case,
        })?;
        binders.push(Binder::SetMember {
            name: name.copy()?,
            ignore_case,
        })?;
        binders.push(Binder::DeleteMember { name, ignore_case })?;
    }
    Ok(binders)
}
