ghost use Rattle.std.specs.Prelude.{◌+◌, ◌*◌, ◌^◌, ◌<◌, ◌≤◌, List, drop, length, IfOk, OnErr, OnOk};
ghost use Rattle.program_run.specs.TaskRuns.{IsRun, IsTaskOf, operations_of};
ghost use Rattle.task_run.specs.Events.{Grew, gained};
ghost use Rattle.task_walk.specs.Comings.{told};
ghost use Rattle.task_walk.specs.Tales.{Asked, Onto};

use script_program::Program;
use std::alloc::{AllocError, Global};
use std::sync::Wait;
use task_compile::compile;
use task_walk::{Code, Ended, Printed, World, run_code};

/// Runs the task of this number of the program, with so many turns: its printed lines are added to `printed`, and its
/// operations and the numbers of its new objects are asked of the world, which answers for this program and task. The
/// world is asked at most 2^21 times for each turn, and so often once more.
///
/// The answer is `Done`, or `Faulted` with the fault that ended the task and was not caught: that of an operation,
/// `HeapFull` where there may be no further object, `Turns` where a further turn would be counted, or `Depth` where a
/// 257th level would open. What it printed and asked before stays.
///
/// Where memory is refused, the world keeps what it answered so far, and `printed` begins with what it held.
pub fn run_task<R: Wait, W: World>(
    rt: &R,
    alloc: Global,
    program: &Program,
    task: u32,
    turns: u32,
    world: &mut W,
    printed: &mut Printed,
) -> Result<Ended, AllocError>
    requires task { IsTaskOf program.now task (W.tale world.old).by }
    requires few { (W.tale world.old).count < 2 ^ 59 }
    ensures ran { IfOk result (λ ended. IsRun program.now task turns (W.tale world.old).by.limit
        (gained (W.tale world.old) (W.tale world.new)) (drop (length printed.old) printed.new) ended) }
    ensures answered { OnOk result (Onto (W.answered world.old) (W.answered world.new) (operations_of program.now task turns
        (W.tale world.old).by.limit (gained (W.tale world.old) (W.tale world.new)))) }
    ensures grew { Grew (told (W.tale world.old) printed.old) (told (W.tale world.new) printed.new) }
    ensures begun { OnErr result
        ((operations : List Asked) × Onto (W.answered world.old) (W.answered world.new) operations) }
    ensures few { (W.tale world.new).count ≤ (W.tale world.old).count + (turns + 1) * 2 ^ 21 }
{
    let numbering = program.numbering();
    let script = compile(alloc, program.script(), numbering)?;
    let code = Code {
        binders: numbering.binders.as_slice(),
        sites: numbering.sites.as_slice(),
        functions: script.functions.as_slice(),
    };
    let body = &script.tasks.as_slice()[task as usize];
    run_code(rt, alloc, &code, body, turns, world, printed)
}
