//! Tasks one after the other.
ghost use Rattle.std.specs.Prelude.{◌≡◌, ◌⊎◌, ◌≤◌, true, length, IfOk};
ghost use Rattle.dlr_engine.specs.Engines.{run_of};
ghost use Rattle.dlr_engine.specs.Passes.{number_of, made_in, program_in, IsNew, IsPassOf};
ghost use Rattle.script_program.specs.Programs.{script_of};
ghost use Rattle.engine_tasks.specs.Lawful.{IsLawful, IsSerial};
ghost use Rattle.engine_tasks.specs.TaskRuns.{AreRunIn, HasPlainNumbers};
ghost use Rattle.engine_tasks.specs.Worlds.{Serves};

use crate::gate::Gate;
use crate::report::{Report, TaskEnd};
use crate::task::run_one;
use crate::world::EngineWorld;
use command_words::Options;
use dlr_engine::{Engine, Pass};
use fallback::Script;
use script_program::Program;
use sqlite_items::Items;
use std::alloc::{AllocError, Global};
use std::sync::Wait;

/// Runs the tasks of the program in script order, in one pass. The one error is want of memory.
pub(crate) fn run_serial<R: Wait, G: Gate>(
    rt: &R,
    alloc: Global,
    program: &Program,
    options: &Options,
    gate: &G,
) -> Result<Report, AllocError>
    requires one { (options.now.serial ≡ true) ⊎ (length (script_of program.now).tasks ≡ 0) }
    requires objects { options.now.objects ≤ 4032 }
    ensures lawful { IfOk result (IsLawful program.now options.now) }
    ensures serial { IfOk result (IsSerial program.now options.now) }
{
    let lang = Script::make(program.fun_table(alloc)?);
    let (engine, mut passes) = Engine::start(alloc, program, lang, options.objects, 1)?;
    let Some(pass) = passes.pop() else {
        unreachable!();
    };
    let (tasks, pass) = run_in_order(rt, alloc, options, gate, &engine, pass)?;
    passes.push(pass)?;
    Ok(Report {
        tasks,
        closed: engine.close(passes),
    })
}

/// Runs all tasks in script order, in the one pass of the engine. The one error is want of memory.
fn run_in_order<'p, R: Wait, G: Gate>(
    rt: &R,
    alloc: Global,
    options: &Options,
    gate: &G,
    engine: &Engine<'p, Script>,
    pass: Pass<'p>,
) -> Result<(Items<TaskEnd>, Pass<'p>), AllocError>
    requires own { IsPassOf (run_of engine.now) pass }
    requires new { IsNew pass }
    requires one { (number_of pass ≡ 0) × (made_in pass ≡ 1) }
    requires serves { Serves options.now (run_of engine.now) }
    ensures own { IfOk result (λ r. IsPassOf (run_of engine.now) r.1) }
    ensures number { IfOk result (λ r. number_of r.1 ≡ 0) }
    ensures plain { IfOk result (λ r. HasPlainNumbers (program_in (run_of engine.now)) r.1) }
    ensures run { IfOk result (λ r. AreRunIn (program_in (run_of engine.now)) options.now
        (length (script_of (program_in (run_of engine.now))).tasks) r.0 r.1) }
{
    let count = engine.program().tasks().len() as u32;
    let mut world = EngineWorld::new(engine, gate, pass);
    let mut tasks = Items::new(alloc);
    for task in 0..count {
        tasks.push(run_one(rt, alloc, options, task, &mut world)?)?;
    }
    Ok((tasks, world.into_pass()))
}
