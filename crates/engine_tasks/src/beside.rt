//! Tasks beside each other.
ghost use Rattle.std.specs.Prelude.{◌≡◌, ◌<◌, ◌≤◌, false, length, All, IfOk};
ghost use Rattle.dlr_engine.specs.Engines.{run_of};
ghost use Rattle.dlr_engine.specs.Passes.{number_of, program_in, AreNew, ArePasses};
ghost use Rattle.script_program.specs.Programs.{script_of};
ghost use Rattle.engine_tasks.specs.Jobs.{AreEnds, CanRun, HasRun, HaveRun};
ghost use Rattle.engine_tasks.specs.Lawful.{IsLawful};
ghost use Rattle.engine_tasks.specs.Worlds.{Serves};

use crate::gate::Gate;
use crate::jobs::{Worker, run_jobs};
use crate::report::{Report, TaskEnd};
use crate::task::run_one;
use crate::world::EngineWorld;
use command_words::Options;
use dlr_engine::{Engine, Pass};
use fallback::Script;
use script_program::Program;
use sqlite_items::Items;
use std::alloc::{AllocError, Global};
use std::sync::Wait;
use std::thread::Threads;

/// What a task came to: its end, and the pass in which it ran.
#[derive(Drop)]
pub(crate) struct Finished<'p> {
    end: TaskEnd,
    pass: Pass<'p>,
}

/// What runs the tasks of an engine's program, each in the pass of its number.
#[derive(Drop)]
pub(crate) struct Runner<'a, 'p, G: Gate> {
    engine: &'a Engine<'p, Script>,
    gate: &'a G,
    options: Options,
    alloc: Global,
}

impl<'p, G: Gate> Worker<Pass<'p>, Result<Finished<'p>, AllocError>> for Runner<'_, 'p, G> {
    ghost ready = { λ runner pass. CanRun runner.options (run_of runner.engine.now) pass };

    ghost done = { λ runner pass result. IfOk result (HasRun runner.options (run_of runner.engine.now) pass) };

    fn work<R: Wait>(&self, rt: &R, pass: Pass<'p>) -> Result<Finished<'p>, AllocError> {
        let task = pass.number();
        let mut world = EngineWorld::new(self.engine, self.gate, pass);
        let end = run_one(rt, self.alloc, &self.options, task, &mut world)?;
        Ok(Finished {
            end,
            pass: world.into_pass(),
        })
    }
}

/// Runs the tasks of the program, each on a thread of its own where one can be made, in a pass of its own. All have
/// ended when it returns. The one error is want of memory.
pub(crate) fn run_beside<R: Threads + Wait + Sync, G: Gate + Sync>(
    rt: &R,
    alloc: Global,
    program: &Program,
    options: &Options,
    gate: &G,
) -> Result<Report, AllocError>
    requires apart { options.now.serial ≡ false }
    requires some { 0 < length (script_of program.now).tasks }
    requires objects { options.now.objects ≤ 4032 }
    ensures lawful { IfOk result (IsLawful program.now options.now) }
{
    let count = program.tasks().len() as u32;
    let lang = Script::make(program.fun_table(alloc)?);
    let (engine, passes) = Engine::start(alloc, program, lang, options.objects, count)?;
    let runner = Runner {
        engine: &engine,
        gate,
        options: *options,
        alloc,
    };
    let (tasks, passes) = ends_of(alloc, run_all(rt, &runner, passes)?)?;
    Ok(Report {
        tasks,
        closed: engine.close(passes),
    })
}

/// Runs the task of each pass, each on a thread of its own where one can be made. The one error is want of memory.
fn run_all<'p, R: Threads + Wait + Sync, G: Gate + Sync>(
    rt: &R,
    runner: &Runner<'_, 'p, G>,
    passes: Vec<Pass<'p>>,
) -> Result<Vec<Result<Finished<'p>, AllocError>>, AllocError>
    requires serves { Serves runner.now.options (run_of runner.now.engine.now) }
    requires passes { ArePasses (run_of runner.now.engine.now) passes.items }
    requires new { AreNew passes.items }
    requires tasks { length passes.items ≤ length (script_of (program_in (run_of runner.now.engine.now))).tasks }
    ensures { IfOk result (λ all.
        HaveRun runner.now.options (run_of runner.now.engine.now) passes.entry.items all.items) }
{
    run_jobs(rt, runner, passes)
}

/// The ends of the tasks and their passes, in order, where each has one: the error is want of memory there, or here.
fn ends_of<'p>(
    alloc: Global,
    all: Vec<Result<Finished<'p>, AllocError>>,
) -> Result<(Items<TaskEnd>, Vec<Pass<'p>>), AllocError>
    ensures { IfOk result (λ r. AreEnds all.entry.items r.0 r.1.items) }
{
    let mut ends = Items::new(alloc);
    let mut passes = Vec::new(alloc);
    for finished in all {
        let Finished { end, pass } = finished?;
        ends.push(end)?;
        passes.push(pass)?;
    }
    Ok((ends, passes))
}
