//! The run of one task.
ghost use Rattle.std.specs.Prelude.{◌≡◌, ◌<◌, ◌≤◌, ◌+◌, ◌*◌, ◌^◌, length, IfOk};
ghost use Rattle.dlr_engine.specs.Engines.{run_of};
ghost use Rattle.dlr_engine.specs.Passes.{number_of, program_in, IsSamePass};
ghost use Rattle.script_program.specs.Programs.{script_of};
ghost use Rattle.engine_tasks.specs.TaskRuns.{Ran};
ghost use Rattle.engine_tasks.specs.Worlds.{Serves};

use crate::gate::Gate;
use crate::report::TaskEnd;
use crate::world::EngineWorld;
use command_words::Options;
use program_run::run_task;
use std::alloc::{AllocError, Global};
use std::sync::Wait;
use task_walk::Printed;

/// Runs the task of this number of the program for which the world answers. The one error is want of memory: then the
/// pass keeps what it made so far.
pub(crate) fn run_one<R: Wait, G: Gate>(
    rt: &R,
    alloc: Global,
    options: &Options,
    task: u32,
    world: &mut EngineWorld<'_, '_, G>,
) -> Result<TaskEnd, AllocError>
    requires task { task < length (script_of (program_in (run_of world.old.engine.now))).tasks }
    requires serves { Serves options.now (run_of world.old.engine.now) }
    requires few { world.old.count < 2 ^ 59 }
    ensures ran { IfOk result (λ end. Ran (program_in (run_of world.old.engine.now)) options.now
        (number_of world.old.pass) task end world.old.pass world.new.pass) }
    ensures engine { run_of world.new.engine.now ≡ run_of world.old.engine.now }
    ensures pass { IsSamePass world.old.pass world.new.pass }
    ensures few { world.new.count ≤ world.old.count + 2 ^ 53 }
{
    world.begin(task);
    let before = world.drawn_count();
    let mut printed = Printed::new(alloc);
    let ended = run_task(
        rt,
        alloc,
        world.program(),
        task,
        options.turns,
        world,
        &mut printed,
    )?;
    let lines = printed.into_lines();
    let drawn = world.drawn_after(alloc, before)?;
    Ok(TaskEnd {
        lines,
        ended,
        drawn,
    })
}
