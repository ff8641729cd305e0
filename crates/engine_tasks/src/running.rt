//! The run of a program's tasks.
ghost use Rattle.std.specs.Prelude.{◌≡◌, ◌≤◌, true, IfOk};
ghost use Rattle.engine_tasks.specs.Lawful.{IsLawful, IsSerial};

use crate::beside::run_beside;
use crate::gate::Gate;
use crate::report::Report;
use crate::serial::run_serial;
use command_words::Options;
use script_program::Program;
use std::alloc::{AllocError, Global};
use std::sync::Wait;
use std::thread::Threads;

/// Runs the tasks of the program: one after the other in one pass, where the options say so, and else beside each
/// other, each on a thread of its own where one can be made, in a pass of its own. All have ended when it returns.
///
/// The report is lawful; where tasks run one after the other, it is a function of the script and the options. The one
/// error is want of memory.
pub fn run_tasks<R: Threads + Wait + Sync, G: Gate + Sync>(
    rt: &R,
    alloc: Global,
    program: &Program,
    options: &Options,
    gate: &G,
) -> Result<Report, AllocError>
    requires objects { options.now.objects ≤ 4032 }
    ensures lawful { IfOk result (IsLawful program.now options.now) }
    ensures serial { options.now.serial ≡ true → IfOk result (IsSerial program.now options.now) }
{
    if options.serial || program.tasks().is_empty() {
        run_serial(rt, alloc, program, options, gate)
    } else {
        run_beside(rt, alloc, program, options, gate)
    }
}
