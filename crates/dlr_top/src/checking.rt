ghost use Rattle.std.specs.Prelude.{◌≡◌, ◌⊎◌, IfSome};
ghost use Rattle.script_grammar.specs.declared.tree.Script.{Script};
ghost use Rattle.script_program.specs.Scripts.{IsScript};
ghost use Rattle.byte_devices.specs.Devices.{Adds, AddsProperFront, Rose, IsReadThrough};
ghost use Rattle.dlr_top.specs.Headline.{Checked, ok_text};
ghost use Rattle.dlr_top.specs.Refusals.{Refused};

use crate::announcing::announce_refusal;
use crate::loading::{Unloaded, load};
use crate::status;
use byte_devices::{Sink, Source, Unwritten, deliver};
use std::alloc::Global;

/// What is written where the script is accepted.
const ACCEPTED: &str = "ok\n";

/// Reads the script that the source holds, and runs nothing: writes `ok`, or the refusal line.
///
/// The answer is `ALL_DONE` where the source held a script and `ok` was written, `REFUSED` where it held none, `MEMORY`
/// where memory was refused and nothing was written, `SOURCE_FAILED` where the source failed and nothing was written,
/// and `SINK_FAILED` where it held a script and the sink failed.
pub fn check_only<S: Source, K: Sink>(alloc: Global, source: &mut S, sink: &mut K) -> u8
    ensures status { (result ≡ 0) ⊎ (result ≡ 3) ⊎ (result ≡ 4) ⊎ (result ≡ 5) ⊎ (result ≡ 6) }
    ensures checked { (result ≡ 0) ⊎ (result ≡ 5) →
        Checked result (S.held source.old) (K.has sink.old) (K.has sink.new) }
    ensures memory { result ≡ 3 → (K.has sink.new ≡ K.has sink.old) × (K.faults sink.new ≡ K.faults sink.old) }
    ensures source_failed { result ≡ 4 → Rose (S.faults source.old) (S.faults source.new) }
    ensures source_unwritten { result ≡ 4 →
        (K.has sink.new ≡ K.has sink.old) × (K.faults sink.new ≡ K.faults sink.old) }
    ensures sink_failed { result ≡ 5 → Rose (K.faults sink.old) (K.faults sink.new) }
    ensures refused { result ≡ 6 →
        Refused (S.held source.old) (K.has sink.old) (K.has sink.new) (K.faults sink.old) (K.faults sink.new) }
    ensures read_through { (result ≡ 0) ⊎ (result ≡ 5) ⊎ (result ≡ 6) →
        IsReadThrough (S.held source.old) (S.held source.new) }

    // Bytes that are no script are refused, and a script is accepted, unless memory is refused or a device fails.
    ensures refuses { (Rose (S.faults source.old) (S.faults source.new) → ⊥) →
        IfSome (S.held source.old) (λ bytes. ((script : Script) → IsScript bytes script → ⊥) →
        (result ≡ 6) ⊎ (result ≡ 3)) }
    ensures complete { (Rose (S.faults source.old) (S.faults source.new) → ⊥) →
        (Rose (K.faults sink.old) (K.faults sink.new) → ⊥) → IfSome (S.held source.old) (λ bytes. (script : Script) →
        IsScript bytes script → (result ≡ 0) ⊎ (result ≡ 3)) }
{
    match load(alloc, source) {
        Ok(_program) => announce_accepted(sink),
        Err(Unloaded::Refused(cause)) => announce_refusal(alloc, sink, cause),
        Err(Unloaded::SourceFailed) => status::SOURCE_FAILED,
        Err(Unloaded::Memory) => status::MEMORY,
    }
}

/// Writes that the script is accepted.
fn announce_accepted<K: Sink>(sink: &mut K) -> u8
    ensures status { (result ≡ 0) ⊎ (result ≡ 3) ⊎ (result ≡ 5) }
    ensures written { result ≡ 0 → Adds (K.has sink.old) (K.has sink.new) ok_text }
    ensures begun { result ≡ 5 → AddsProperFront (K.has sink.old) (K.has sink.new) ok_text }
    ensures memory { result ≡ 3 → (K.has sink.new ≡ K.has sink.old) × (K.faults sink.new ≡ K.faults sink.old) }
    ensures sink_failed { result ≡ 5 → Rose (K.faults sink.old) (K.faults sink.new) }
{
    match deliver(sink, ACCEPTED.as_bytes()) {
        Ok(()) => status::ALL_DONE,
        Err(Unwritten::SinkFailed) => status::SINK_FAILED,
        Err(Unwritten::Memory) => status::MEMORY,
    }
}
