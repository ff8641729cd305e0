//! Two tasks over one shared object, beside each other and one after the other. What a test looks at is the same in
//! whatever order the tasks take their turns.
use crate::{OpenGate, Report, TaskEnd, run_tasks};
use command_words::Options;
use dyn_value::Entry;
use script_program::read;
use std::alloc::Global;
use std::sync::Wait;
use std::test::Fail;
use std::thread::Threads;
use task_walk::Ended;

const SCRIPT: &str = "shared o;
task one { o.a = 1; o.a = (o.a + 2); print o.a; }
task two { o.b = \"b\"; print o.b; let p = new(); p.c = 4; print p.c; }";

/// What each task prints.
static LINES: [&[&str]; 2] = [&["3"], &["b", "4"]];

/// How many operations each task makes on the shared object.
const MADE: [usize; 2] = [4, 2];

#[test]
fn two_tasks_share_an_object(rt: HostRuntime) -> Result<(), Fail> {
    let alloc = rt.alloc();
    for serial in [false, true] {
        let report = run_script(&rt, alloc, serial)?;
        assert!(rt; has_lines(&report), "serial: {serial}");
        assert!(rt; has_journals(&report, serial), "serial: {serial}");
    }
    Ok(())
}

/// What the script's run came to.
fn run_script<R: Threads + Wait + Sync>(
    rt: &R,
    alloc: Global,
    serial: bool,
) -> Result<Report, Fail> {
    let program = read(alloc, SCRIPT.as_bytes())?;
    let options = Options {
        serial,
        journal: false,
        turns: 100,
        objects: 4,
    };
    Ok(run_tasks(rt, alloc, &program, &options, &OpenGate)?)
}

/// Whether each task ended, and printed its lines.
fn has_lines(report: &Report) -> bool {
    let tasks = report.tasks.as_slice();
    tasks.len() == LINES.len()
        && tasks
            .iter()
            .zip(&LINES)
            .all(|(end, lines)| is_end(end, lines))
}

/// Whether the task came to its end with these lines.
fn is_end(end: &TaskEnd, lines: &[&str]) -> bool {
    let printed = end.lines.as_slice();
    matches!(end.ended, Ended::Done)
        && printed.len() == lines.len()
        && printed
            .iter()
            .zip(lines)
            .all(|(line, want)| line.as_str() == *want)
}

/// Whether each object has the entries of the tasks' operations on it, each in its task's pass.
fn has_journals(report: &Report, serial: bool) -> bool {
    match report.closed.journals() {
        [shared, made, rest @ ..] => {
            let entries = shared.as_slice();
            entries.len() == MADE[0] + MADE[1]
                && entries.iter().all(|entry| is_in_pass(entry, serial))
                && count_of(entries, 0) == MADE[0]
                && made.len() == 2
                && rest.iter().all(|journal| journal.len() == 0)
        }
        _ => false,
    }
}

/// Whether the entry is in its task's pass.
fn is_in_pass(entry: &Entry, serial: bool) -> bool {
    entry.pass == if serial { 0 } else { entry.task }
}

/// How many of the entries are the task's.
fn count_of(entries: &[Entry], task: u32) -> usize {
    entries.iter().filter(|entry| entry.task == task).count()
}
