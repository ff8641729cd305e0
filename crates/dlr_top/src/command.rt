ghost use Rattle.std.specs.Prelude.{◌≡◌, ◌≤◌, ◌↔◌, ◌⊎◌, List, ℕ, None, Some, IsSome, IfSome};
ghost use Rattle.script_grammar.specs.declared.tree.Script.{Script};
ghost use Rattle.script_program.specs.Scripts.{IsScript};
ghost use Rattle.command_words.specs.declared.words.Command.TheVariants.{Run, Check};
ghost use Rattle.command_words.specs.declared.words.Options.{Options};
ghost use Rattle.command_words.specs.Commands.{command_of};
ghost use Rattle.byte_devices.specs.Devices.{Rose, IsReadThrough};
ghost use Rattle.dlr_top.specs.Headline.{Announced, Checked, Reports};
ghost use Rattle.dlr_top.specs.Refusals.{Refused};
ghost use Rattle.dlr_top.specs.Rendering.{usage_text};

use crate::announcing::{announce, announce_refusal};
use crate::checking::check_only;
use crate::execution::execute;
use crate::loading::{Unloaded, load};
use crate::status;
use byte_devices::{Sink, Source};
use command_words::{Command, Options, WordsRefused, read_words};
use dyn_value::DynText;
use engine_tasks::{Gate, Report};
use std::alloc::Global;
use std::sync::Wait;
use std::thread::Threads;

/// What is written where the words are no command.
const USAGE: &str =
    "usage: dlr run [--serial] [--journal] [--stats] [--rules] [--turns N] [--objects N] | check | drill SEED\n";

/// How the command ended: its status, and the report where there is one.
#[derive(Debug, Drop)]
pub struct TopOutcome {
    pub status: u8,
    pub report: Option<Report>,
}

impl TopOutcome {
    ghost use Rattle.std.specs.Prelude.{◌≡◌, None, Some};

    pub(crate) fn without_report(status: u8) -> TopOutcome
        ensures status { result.status ≡ status }
        ensures report { result.report ≡ None }
    {
        TopOutcome {
            status,
            report: None,
        }
    }

    pub(crate) fn with_report(status: u8, report: Report) -> TopOutcome
        ensures status { result.status ≡ status }
        ensures report { result.report ≡ Some report }
    {
        TopOutcome {
            status,
            report: Some(report),
        }
    }
}

/// The command: its words, a source that the script is read from, and a sink that the text is written to.
pub fn top<R: Threads + Wait + Sync, S: Source, K: Sink, G: Gate + Sync>(
    rt: &R,
    alloc: Global,
    words: &[DynText],
    source: &mut S,
    sink: &mut K,
    gate: &G,
) -> TopOutcome
    ensures status { result.status ≤ 6 }

    // The words: where they are no command, nothing is read.
    ensures words_refused { result.status ≡ 2 → command_of words.now ≡ None }
    ensures words_taken { command_of words.now ≡ None → (result.status ≡ 2) ⊎ (result.status ≡ 3) }
    ensures words_unread { command_of words.now ≡ None →
        (S.held source.new ≡ S.held source.old) × (S.faults source.new ≡ S.faults source.old) }
    ensures usage { result.status ≡ 2 →
        Announced (K.has sink.old) (K.has sink.new) (K.faults sink.old) (K.faults sink.new) usage_text }

    // Want of memory, and a source that failed: nothing is written.
    ensures memory { result.status ≡ 3 → (K.has sink.new ≡ K.has sink.old) × (K.faults sink.new ≡ K.faults sink.old) }
    ensures source_failed { result.status ≡ 4 → Rose (S.faults source.old) (S.faults source.new) }
    ensures source_unwritten { result.status ≡ 4 →
        (K.has sink.new ≡ K.has sink.old) × (K.faults sink.new ≡ K.faults sink.old) }

    // The source was read to its end, or to the byte where reading stops.
    ensures read_through { (result.status ≡ 0) ⊎ (result.status ≡ 1) ⊎ (result.status ≡ 5) ⊎ (result.status ≡ 6) →
        IsReadThrough (S.held source.old) (S.held source.new) }

    // The script is refused exactly where the bytes are none, and the line tells the cause and its place.
    ensures refused { result.status ≡ 6 →
        Refused (S.held source.old) (K.has sink.old) (K.has sink.new) (K.faults sink.old) (K.faults sink.new) }
    ensures refuses { IsSome (command_of words.now) → (Rose (S.faults source.old) (S.faults source.new) → ⊥) →
        IfSome (S.held source.old) (λ bytes. ((script : Script) → IsScript bytes script → ⊥) →
        (result.status ≡ 6) ⊎ (result.status ≡ 3)) }

    // The headline: a lawful report of the script that was read, which is that of its tasks one after the other,
    // and its text in the sink.
    ensures reported { (options : Options) → command_of words.now ≡ Some (Run options) →
        (IsSome result.report ↔ ((result.status ≡ 0) ⊎ (result.status ≡ 1) ⊎ (result.status ≡ 5))) }
    ensures report { IfSome result.report (λ report. Reports result.status words.now (S.held source.old)
        (K.has sink.old) (K.has sink.new) report) }
    ensures sink_failed { result.status ≡ 5 → Rose (K.faults sink.old) (K.faults sink.new) }

    // A check accepts scripts alone.
    ensures checked { command_of words.now ≡ Some Check → (result.status ≡ 0) ⊎ (result.status ≡ 5) →
        Checked result.status (S.held source.old) (K.has sink.old) (K.has sink.new) }
    ensures runs_nothing { command_of words.now ≡ Some Check → result.status ≡ 1 → ⊥ }

    // A script whose source and sink do not fail is run, or accepted, unless memory is refused.
    ensures complete { IsSome (command_of words.now) → (Rose (S.faults source.old) (S.faults source.new) → ⊥) →
        (Rose (K.faults sink.old) (K.faults sink.new) → ⊥) → IfSome (S.held source.old) (λ bytes. (script : Script) →
        IsScript bytes script → (result.status ≡ 0) ⊎ (result.status ≡ 1) ⊎ (result.status ≡ 3)) }
{
    match read_words(alloc, words) {
        Ok(Command::Check) => TopOutcome::without_report(check_only(alloc, source, sink)),
        Ok(Command::Run(options)) => run_script(rt, alloc, &options, source, sink, gate),
        Err(WordsRefused::Bad) => {
            TopOutcome::without_report(announce(sink, USAGE.as_bytes(), status::WORDS_REFUSED))
        }
        Err(WordsRefused::Memory) => TopOutcome::without_report(status::MEMORY),
    }
}

/// Runs the script that the source holds.
fn run_script<R: Threads + Wait + Sync, S: Source, K: Sink, G: Gate + Sync>(
    rt: &R,
    alloc: Global,
    options: &Options,
    source: &mut S,
    sink: &mut K,
    gate: &G,
) -> TopOutcome
    requires objects { options.now.objects ≤ 4032 }
    ensures status { (result.status ≡ 0) ⊎ (result.status ≡ 1) ⊎ (result.status ≡ 3) ⊎ (result.status ≡ 4) ⊎
        (result.status ≡ 5) ⊎ (result.status ≡ 6) }
    ensures memory { result.status ≡ 3 → (K.has sink.new ≡ K.has sink.old) × (K.faults sink.new ≡ K.faults sink.old) }
    ensures source_failed { result.status ≡ 4 → Rose (S.faults source.old) (S.faults source.new) }
    ensures source_unwritten { result.status ≡ 4 →
        (K.has sink.new ≡ K.has sink.old) × (K.faults sink.new ≡ K.faults sink.old) }
    ensures read_through { (result.status ≡ 0) ⊎ (result.status ≡ 1) ⊎ (result.status ≡ 5) ⊎ (result.status ≡ 6) →
        IsReadThrough (S.held source.old) (S.held source.new) }
    ensures refused { result.status ≡ 6 →
        Refused (S.held source.old) (K.has sink.old) (K.has sink.new) (K.faults sink.old) (K.faults sink.new) }
    ensures refuses { (Rose (S.faults source.old) (S.faults source.new) → ⊥) →
        IfSome (S.held source.old) (λ bytes. ((script : Script) → IsScript bytes script → ⊥) →
        (result.status ≡ 6) ⊎ (result.status ≡ 3)) }
    ensures reported { IsSome result.report ↔ ((result.status ≡ 0) ⊎ (result.status ≡ 1) ⊎ (result.status ≡ 5)) }
    ensures report { IfSome result.report (λ report. (words : List (List ℕ)) →
        command_of words ≡ Some (Run options.now) →
        Reports result.status words (S.held source.old) (K.has sink.old) (K.has sink.new) report) }
    ensures sink_failed { result.status ≡ 5 → Rose (K.faults sink.old) (K.faults sink.new) }
    ensures complete { (Rose (S.faults source.old) (S.faults source.new) → ⊥) →
        (Rose (K.faults sink.old) (K.faults sink.new) → ⊥) → IfSome (S.held source.old) (λ bytes. (script : Script) →
        IsScript bytes script → (result.status ≡ 0) ⊎ (result.status ≡ 1) ⊎ (result.status ≡ 3)) }
{
    match load(alloc, source) {
        Ok(program) => execute(rt, alloc, &program, options, sink, gate),
        Err(Unloaded::SourceFailed) => TopOutcome::without_report(status::SOURCE_FAILED),
        Err(Unloaded::Refused(cause)) => {
            TopOutcome::without_report(announce_refusal(alloc, sink, cause))
        }
        Err(Unloaded::Memory) => TopOutcome::without_report(status::MEMORY),
    }
}
