//! Operations of each kind, of one pass of two.
use super::asking::{Refused, draw, program_of};
use super::cases::{Action, Case, Site, TASK, Want, is_history, play};
use super::pairs::{close_two, two_of};
use crate::{Closed, Drawn, Engine, Level, Levels, Pass};
use fallback::Script;
use script_program::Program;
use std::alloc::Global;
use std::sync::Wait;
use std::test::Fail;

/// A script with a site for each case.
const SCRIPT: &[u8] = b"shared o; fn f(a) { return a; } task t { o.x = 1; print o.x; \
    print (1 + 2); delete o.x; print o.x; print f(3); o.x = 2; print o.x; }";

/// The pass sets a member, reads it and removes it, and reads it in vain; then it sets and reads it again, by the rules
/// that it knows from the first time. Beside these it adds and calls.
fn cases() -> [Case; 8] {
    [
        Case::on_object(0, at(0, 0), Action::Set(1), Want::Nil, Level::Bind, 0),
        Case::on_object(0, at(1, 1), Action::Get, Want::Number(1), Level::Bind, 1),
        Case::plain(0, at(2, 2), Action::Add(1, 2), Want::Number(3), Level::Bind),
        Case::on_object(0, at(3, 3), Action::Delete, Want::Nil, Level::Bind, 2),
        Case::on_object(0, at(4, 1), Action::Get, Want::NoMember, Level::Bind, 3),
        Case::plain(0, at(5, 4), Action::Invoke(3), Want::Call(0), Level::Bind),
        Case::on_object(0, at(6, 0), Action::Set(2), Want::Nil, Level::Binder, 4),
        Case::on_object(0, at(7, 1), Action::Get, Want::Number(2), Level::Binder, 5),
    ]
}

/// The site with this number, whose binder has that one.
fn at(number: u32, binder: u32) -> Site {
    Site { number, binder }
}

/// The first pass plays the cases. The other one does nothing.
#[test]
fn one_pass_on_one_object(rt: HostRuntime) -> Result<(), Fail> {
    let alloc = rt.alloc();
    let program = program_of(alloc, SCRIPT)?;
    let cases = cases();
    let closed = run_cases(&rt, alloc, &program, &cases)?;
    assert!(rt; is_closed(&closed, &cases));
    Ok(())
}

/// What a run of the cases came to, where each was answered as it has to be, and then a number was drawn.
fn run_cases<R: Wait>(
    rt: &R,
    alloc: Global,
    program: &Program,
    cases: &[Case],
) -> Result<Closed, Refused> {
    let lang = Script::make(program.fun_table(alloc)?);
    let (engine, passes) = Engine::start(alloc, program, lang, 2, 2)?;
    let (mut first, second) = two_of(&engine, passes);
    let all_answered = play(rt, alloc, &engine, &mut first, cases)?;
    draw(&engine, &mut first, TASK)?;
    if !all_answered || !is_counted(&first) {
        return Err(Refused::Answer);
    }
    Ok(close_two(alloc, engine, first, second)?)
}

/// Whether it counts the cases, and the first number after that of the shared object was drawn.
fn is_counted(pass: &Pass<'_>) -> bool {
    let is_drawn = match pass.drawn() {
        [Drawn { task, number }] => *task == TASK && *number == 1,
        _ => false,
    };
    is_drawn && are_counts(pass.levels()) && pass.binds() == 6 && pass.calls() == 9
}

/// Whether six operations were bound, and two answered by rules that were known of their binders.
fn are_counts(levels: &Levels) -> bool {
    levels.target == 0 && levels.site == 0 && levels.binder == 2 && levels.binds == 6
}

/// Whether the first object has the history of the cases, the two others have none, and the first pass alone drew and
/// counted.
fn is_closed(closed: &Closed, cases: &[Case]) -> bool {
    match (closed.journals(), closed.drawn()) {
        ([journal, second, third], [drawn, none]) => {
            is_history(cases, journal.as_slice())
                && second.as_slice().is_empty()
                && third.as_slice().is_empty()
                && drawn.as_slice().len() == 1
                && none.as_slice().is_empty()
                && are_counts(closed.levels())
        }
        _ => false,
    }
}
