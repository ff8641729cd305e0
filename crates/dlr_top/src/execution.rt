ghost use Rattle.std.specs.Prelude.{◌≡◌, ◌≤◌, ◌↔◌, ◌⊎◌, List, ℕ, true, Option, Some, IsTrue, IsSome, IfSome, IfOk, encode_utf8_all};
ghost use Rattle.byte_devices.specs.Devices.{Rose};
ghost use Rattle.command_words.specs.declared.words.Command.TheVariants.{Run};
ghost use Rattle.command_words.specs.Commands.{command_of};
ghost use Rattle.engine_tasks.specs.Lawful.{IsLawful, IsSerial};
ghost use Rattle.script_program.specs.Programs.{script_of};
ghost use Rattle.script_program.specs.Scripts.{IsScript};
ghost use Rattle.dlr_top.specs.Headline.{Reports, SomeFaulted};
ghost use Rattle.dlr_top.specs.Rendering.{report_text};

use crate::command::TopOutcome;
use crate::report::render;
use crate::status;
use byte_devices::{Sink, Unwritten, deliver};
use command_words::Options;
use engine_tasks::{Gate, Report, run_tasks};
use script_program::Program;
use std::alloc::{AllocError, Global};
use std::sync::Wait;
use std::thread::Threads;
use task_walk::Ended;

/// Runs the program, and writes the text of its report.
pub(crate) fn execute<R: Threads + Wait + Sync, K: Sink, G: Gate + Sync>(
    rt: &R,
    alloc: Global,
    program: &Program,
    options: &Options,
    sink: &mut K,
    gate: &G,
) -> TopOutcome
    requires objects { options.now.objects ≤ 4032 }
    ensures status { (result.status ≡ 0) ⊎ (result.status ≡ 1) ⊎ (result.status ≡ 3) ⊎ (result.status ≡ 5) }
    ensures reported { IsSome result.report ↔ ((result.status ≡ 0) ⊎ (result.status ≡ 1) ⊎ (result.status ≡ 5)) }
    ensures report { IfSome result.report (λ report. (held : Option (List ℕ)) (words : List (List ℕ)) →
        IfSome held (λ bytes. IsScript bytes (script_of program.now)) → command_of words ≡ Some (Run options.now) →
        Reports result.status words held (K.has sink.old) (K.has sink.new) report) }
    ensures memory { result.status ≡ 3 → (K.has sink.new ≡ K.has sink.old) × (K.faults sink.new ≡ K.faults sink.old) }
    ensures sink_failed { result.status ≡ 5 → Rose (K.faults sink.old) (K.faults sink.new) }
{
    let (report, text) = match run_and_render(rt, alloc, program, options, gate) {
        Ok(run) => run,
        Err(AllocError) => return TopOutcome::without_report(status::MEMORY),
    };
    match deliver(sink, text.as_slice()) {
        Ok(()) => TopOutcome::with_report(status_of(&report), report),
        Err(Unwritten::SinkFailed) => TopOutcome::with_report(status::SINK_FAILED, report),
        Err(Unwritten::Memory) => TopOutcome::without_report(status::MEMORY),
    }
}

// The report of the program's run, and its text.
fn run_and_render<R: Threads + Wait + Sync, G: Gate + Sync>(
    rt: &R,
    alloc: Global,
    program: &Program,
    options: &Options,
    gate: &G,
) -> Result<(Report, Vec<u8>), AllocError>
    requires objects { options.now.objects ≤ 4032 }
    ensures lawful { IfOk result (λ run. IsLawful program.now options.now run.0) }
    ensures serial { options.now.serial ≡ true → IfOk result (λ run. IsSerial program.now options.now run.0) }
    ensures text { IfOk result (λ run. run.1.items ≡ encode_utf8_all (report_text program.now options.now run.0)) }
{
    let report = run_tasks(rt, alloc, program, options, gate)?;
    let mut text = Vec::new(alloc);
    render(program, options, &report, &mut text)?;
    Ok((report, text))
}

// The status of a run whose text was written whole.
fn status_of(report: &Report) -> u8
    ensures status { (result ≡ 0) ⊎ (result ≡ 1) }
    ensures all_done { result ≡ 0 → SomeFaulted report.now → ⊥ }
    ensures faulted { result ≡ 1 → SomeFaulted report.now }
{
    if is_any_faulted(report) {
        status::TASK_FAULTED
    } else {
        status::ALL_DONE
    }
}

fn is_any_faulted(report: &Report) -> bool
    ensures faulted { IsTrue result → SomeFaulted report.now }
    ensures none { SomeFaulted report.now → IsTrue result }
{
    for end in report.tasks.as_slice() {
        if let Ended::Faulted(_) = end.ended {
            return true;
        }
    }
    false
}
