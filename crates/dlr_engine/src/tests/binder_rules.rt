//! That a rule which was bound at one site answers at another one of its binder, and to another pass.
ghost use Rattle.std.specs.Prelude.{◌≡◌};
ghost use Rattle.dlr_engine.specs.Engines.{run_of};
ghost use Rattle.dlr_engine.specs.Passes.{passes_in, ArePasses, IsPassOf};

use super::asking::{Refused, program_of};
use super::cases::{Action, Case, Site, Want, play};
use super::pairs::closed_after;
use crate::{Engine, Level, Levels, Pass};
use fallback::Script;
use script_program::Program;
use std::alloc::Global;
use std::sync::Wait;
use std::test::Fail;

/// A script with two sites of one binder.
const SUMS: &[u8] = b"task a { print (1 + 2); print (3 + 4); }";

/// The first sum is bound, and the second one is answered by its rule; the second pass asks for the second one.
fn sums(second: u32) -> [Case; 2] {
    let (here, there) = (site(0), site(1));
    [
        Case::plain(0, here, Action::Add(1, 2), Want::Number(3), Level::Bind),
        Case::plain(
            second,
            there,
            Action::Add(3, 4),
            Want::Number(7),
            Level::Binder,
        ),
    ]
}

/// A site of the script.
fn site(number: u32) -> Site {
    Site { number, binder: 0 }
}

/// One pass that is alone.
#[test]
fn a_sum_at_a_second_site(rt: HostRuntime) -> Result<(), Fail> {
    let alloc = rt.alloc();
    let program = program_of(alloc, SUMS)?;
    let levels = levels_alone(&rt, alloc, &program, &sums(0))?;
    assert!(rt; are_two_sums(&levels));
    Ok(())
}

/// Two passes: the second one learns what the first bound.
#[test]
fn a_sum_of_a_second_pass(rt: HostRuntime) -> Result<(), Fail> {
    let alloc = rt.alloc();
    let program = program_of(alloc, SUMS)?;
    let closed = closed_after(&rt, alloc, &program, &sums(1))?;
    assert!(rt; are_two_sums(closed.levels()));
    Ok(())
}

/// What the one pass of an engine counts, which was asked for the operations of the cases.
fn levels_alone<R: Wait>(
    rt: &R,
    alloc: Global,
    program: &Program,
    cases: &[Case],
) -> Result<Levels, Refused> {
    let lang = Script::make(program.fun_table(alloc)?);
    let (engine, passes) = Engine::start(alloc, program, lang, 0, 1)?;
    let mut pass = only_of(&engine, passes);
    if !play(rt, alloc, &engine, &mut pass, cases)? {
        return Err(Refused::Answer);
    }
    Ok(*pass.levels())
}

/// The one pass of an engine that has one.
fn only_of<'p>(engine: &Engine<'p, Script>, mut passes: Vec<Pass<'p>>) -> Pass<'p>
    requires all { ArePasses (run_of engine.now) passes.items }
    requires one { passes_in (run_of engine.now) ≡ 1 }
    ensures { IsPassOf (run_of engine.now) result }
{
    passes.remove(0)
}

/// Whether one operation was bound, and one answered by a rule that was known of its binder.
fn are_two_sums(levels: &Levels) -> bool {
    levels.target == 0 && levels.site == 0 && levels.binder == 1 && levels.binds == 1
}
