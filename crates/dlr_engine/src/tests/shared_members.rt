//! That a pass answers by the members that stand in its turn, whichever pass put them there and bound there first.
use super::asking::program_of;
use super::cases::{Action, Case, Site, Want, is_history};
use super::pairs::closed_after;
use crate::{Closed, Level};
use std::test::Fail;

/// A script that sets, reads and removes one member.
const MEMBER: &[u8] = b"shared s; task a { s.x = 1; print s.x; delete s.x; }";

/// The site of the write.
const SET: Site = Site {
    number: 0,
    binder: 0,
};

/// The site of the read.
const GET: Site = Site {
    number: 1,
    binder: 1,
};

/// The site of the removal.
const DELETE: Site = Site {
    number: 2,
    binder: 2,
};

/// The second pass reads before the first sets the member, between that and its removal, and once it is set again.
fn reads_between() -> [Case; 6] {
    [
        Case::on_object(1, GET, Action::Get, Want::NoMember, Level::Bind, 0),
        Case::on_object(0, SET, Action::Set(1), Want::Nil, Level::Bind, 1),
        Case::on_object(1, GET, Action::Get, Want::Number(1), Level::Bind, 2),
        Case::on_object(0, DELETE, Action::Delete, Want::Nil, Level::Bind, 3),
        Case::on_object(0, SET, Action::Set(2), Want::Nil, Level::Binder, 4),
        Case::on_object(1, GET, Action::Get, Want::Number(2), Level::Binder, 5),
    ]
}

/// The second pass reads, for the first time, what the first set and read.
fn reads_after() -> [Case; 3] {
    [
        Case::on_object(0, SET, Action::Set(1), Want::Nil, Level::Bind, 0),
        Case::on_object(0, GET, Action::Get, Want::Number(1), Level::Bind, 1),
        Case::on_object(1, GET, Action::Get, Want::Number(1), Level::Binder, 2),
    ]
}

/// What a pass knows of an object from before is not what it answers by.
#[test]
fn a_member_that_comes_and_goes(rt: HostRuntime) -> Result<(), Fail> {
    let alloc = rt.alloc();
    let program = program_of(alloc, MEMBER)?;
    let cases = reads_between();
    let closed = closed_after(&rt, alloc, &program, &cases)?;
    assert!(rt; is_closed(&closed, &cases, 4, 2));
    Ok(())
}

/// A pass learns a rule for a class that another one made.
#[test]
fn a_read_by_the_rule_of_another_pass(rt: HostRuntime) -> Result<(), Fail> {
    let alloc = rt.alloc();
    let program = program_of(alloc, MEMBER)?;
    let cases = reads_after();
    let closed = closed_after(&rt, alloc, &program, &cases)?;
    assert!(rt; is_closed(&closed, &cases, 2, 1));
    Ok(())
}

/// Whether the one object has the history of the cases, of which so many were bound, and so many answered by rules that
/// were known.
fn is_closed(closed: &Closed, cases: &[Case], bound: u64, known: u64) -> bool {
    let levels = closed.levels();
    let is_counted = levels.binds == bound && levels.binder == known;
    match closed.journals() {
        [journal] => is_counted && is_history(cases, journal.as_slice()),
        _ => false,
    }
}
