ghost use Rattle.std.specs.Prelude.{◌≡◌, ◌+◌, ◌*◌, ◌^◌, ◌<◌, ◌≤◌, IfOk};
ghost use Rattle.task_code.specs.Costs.{steps_cost, steps_uses};
ghost use Rattle.task_code.specs.Fits.{Fits};
ghost use Rattle.task_walk.specs.Comings.{told};
ghost use Rattle.task_walk.specs.Runs.{CameToEnd, IsProperEnd};
ghost use Rattle.task_walk.specs.Walks.{IsFor, most_asked};

use crate::code::Code;
use crate::ended::Ended;
use crate::printed::Printed;
use crate::statements::run_steps;
use crate::stop::Stop;
use crate::world::World;
use sqlite_items::Items;
use std::alloc::{AllocError, Global};
use std::sync::Wait;
use task_code::{Frame, Steps};

/// The most levels that may be open at once.
const MOST_LEVELS: u32 = 256;

/// Runs the code of a task with so many turns: its printed lines are added to `printed`, and its operations and the
/// numbers of its new objects are asked of the world, which answers for this code.
///
/// The answer is `Done`, or `Faulted` with the fault that ended the task: one of an operation that was not caught,
/// `HeapFull` where there may be no further object, `Turns` where a further turn would be counted, or `Depth` where a
/// 257th level would open. What it printed and asked before stays.
///
/// Where memory is refused, the world keeps what it answered so far, and `printed` the lines.
pub fn run_code<R: Wait, W: World>(
    rt: &R,
    alloc: Global,
    code: &Code,
    body: &Steps,
    turns: u32,
    world: &mut W,
    printed: &mut Printed,
) -> Result<Ended, AllocError>
    requires world { IsFor code.now (W.tale world.old).by }
    requires fits { Fits (W.tale world.old).by.plan (W.tale world.old).by.limit (steps_uses body.now) }
    requires cheap { steps_cost body.now ≤ most_asked }
    requires few { (W.tale world.old).count < 2 ^ 59 }
    ensures ran { CameToEnd code.now body.now turns result (told (W.tale world.old) printed.old)
        (told (W.tale world.new) printed.new) (W.answered world.old) (W.answered world.new) }
    ensures same { (W.tale world.new).by ≡ (W.tale world.old).by }
    ensures count { (W.tale world.new).count ≤ (W.tale world.old).count + (turns + 1) * most_asked }
    ensures proper { IfOk result IsProperEnd }
{
    let mut frame = Frame {
        turns,
        locals: Items::new(alloc),
    };
    match run_steps(
        rt,
        alloc,
        code,
        body.0.as_slice(),
        MOST_LEVELS,
        &mut frame,
        world,
        printed,
    ) {
        Ok(_) => Ok(Ended::Done),
        Err(Stop::Fault(fault)) => Ok(Ended::Faulted(fault)),
        Err(Stop::Memory) => Err(AllocError),
    }
}
