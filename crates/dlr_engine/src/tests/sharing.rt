//! Two threads on one object.
use super::asking::{Refused, program_of};
use super::pairs::{close_two, two_of};
use super::workers::{OPERATIONS, SHARING, Shift, is_in_order, replayed, work_beside};
use crate::{Closed, Engine, Levels};
use fallback::Script;
use script_program::Program;
use std::alloc::Global;
use std::sync::Wait;
use std::test::Fail;
use std::thread::Threads;

/// Two threads, each with a pass of its own, set, read and remove one member of one object.
#[test]
fn two_threads_on_one_object(rt: HostRuntime) -> Result<(), Fail> {
    let alloc = rt.alloc();
    let program = program_of(alloc, SHARING)?;
    let closed = run_threads(&rt, alloc, &program)?;
    assert!(rt; is_shared(&closed));
    Ok(())
}

/// What a run of two threads came to.
fn run_threads<R: Threads + Wait + Sync>(
    rt: &R,
    alloc: Global,
    program: &Program,
) -> Result<Closed, Refused> {
    let lang = Script::make(program.fun_table(alloc)?);
    let (engine, passes) = Engine::start(alloc, program, lang, 0, 2)?;
    let (first, second) = two_of(&engine, passes);
    let first = Shift {
        rt,
        alloc,
        engine: &engine,
        pass: first,
    };
    let second = Shift {
        rt,
        alloc,
        engine: &engine,
        pass: second,
    };
    let (first, second) = work_beside(rt, first, second);
    Ok(close_two(alloc, engine, first, second)?)
}

/// Whether the one object has a history of the operations of both threads, where each thread's stand in their order.
fn is_shared(closed: &Closed) -> bool {
    match closed.journals() {
        [journal] => {
            let journal = journal.as_slice();
            journal.len() == 2 * OPERATIONS as usize
                && replayed(journal) == journal.len()
                && is_in_order(journal, 0)
                && is_in_order(journal, 1)
                && are_counts(closed.levels())
        }
        _ => false,
    }
}

/// Whether all operations of both threads were bound or answered by known rules. Each of the three binders has a rule
/// that was bound first; and each pass binds at most once for a binder and a class, of which there are three: the
/// object has no member, or it has the one in the class of either pass.
fn are_counts(levels: &Levels) -> bool {
    levels.target == 0
        && levels.site == 0
        && levels.binder.wrapping_add(levels.binds) == 2 * u64::from(OPERATIONS)
        && 3 <= levels.binds
        && levels.binds <= 18
}
