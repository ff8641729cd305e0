//! Engines of two passes, from their start to their end.
ghost use Rattle.std.specs.Prelude.{◌≡◌};
ghost use Rattle.dlr_engine.specs.Engines.{run_of};
ghost use Rattle.dlr_engine.specs.Passes.{number_of, passes_in, ArePasses, IsPassOf};

use super::asking::Refused;
use super::cases::{Case, play_two};
use crate::{Closed, Engine, Pass};
use fallback::Script;
use meta_object::Language;
use script_program::Program;
use std::alloc::{AllocError, Global};
use std::sync::Wait;

/// What a run of two passes came to, which were asked for the operations of the cases.
pub(super) fn closed_after<R: Wait>(
    rt: &R,
    alloc: Global,
    program: &Program,
    cases: &[Case],
) -> Result<Closed, Refused> {
    let lang = Script::make(program.fun_table(alloc)?);
    let (engine, passes) = Engine::start(alloc, program, lang, 0, 2)?;
    let (mut first, mut second) = two_of(&engine, passes);
    if !play_two(rt, alloc, &engine, &mut first, &mut second, cases)? {
        return Err(Refused::Answer);
    }
    Ok(close_two(alloc, engine, first, second)?)
}

/// The first pass, and the other one.
pub(super) fn two_of<'p, L: Language + Drop>(
    engine: &Engine<'p, L>,
    mut passes: Vec<Pass<'p>>,
) -> (Pass<'p>, Pass<'p>)
    requires all { ArePasses (run_of engine.now) passes.items }
    requires two { passes_in (run_of engine.now) ≡ 2 }
    ensures first { IsPassOf (run_of engine.now) result.0 × (number_of result.0 ≡ 0) }
    ensures second { IsPassOf (run_of engine.now) result.1 × (number_of result.1 ≡ 1) }
{
    let second = passes.remove(1);
    let first = passes.remove(0);
    (first, second)
}

/// What the run of these two passes came to.
pub(super) fn close_two<'p>(
    alloc: Global,
    engine: Engine<'p, Script>,
    first: Pass<'p>,
    second: Pass<'p>,
) -> Result<Closed, AllocError>
    requires first { IsPassOf (run_of engine) first × (number_of first ≡ 0) }
    requires second { IsPassOf (run_of engine) second × (number_of second ≡ 1) }
    requires two { passes_in (run_of engine) ≡ 2 }
{
    let passes = vec![in alloc; first, second]?;
    Ok(engine.close(passes))
}
