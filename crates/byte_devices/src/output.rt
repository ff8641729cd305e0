ghost use Rattle.std.specs.Prelude.{◌≡◌, ◌≤◌, length, drop, OnOk, OnErr, IsErrOf};
ghost use Rattle.byte_devices.specs.Devices.{Rose, Adds, AddsProperFront};

use crate::sink::Sink;
use crate::source::Failed;

/// Why a text is not in the sink whole.
#[derive(Clone, Copy, Debug, PartialEq, Eq)]
pub enum Unwritten {
    /// The sink failed, and has a front of the text, and not all of it.
    SinkFailed,
    /// Memory was refused, and nothing was written.
    Memory,
}

/// Reserves room for the whole text, and then writes it. Each write is offered all that is left.
///
/// # Errors
///
/// [`Unwritten::SinkFailed`] comes where a write failed: the sink has taken a front of the text, and not all of it.
/// [`Unwritten::Memory`] comes where the room was refused: nothing was written.
pub fn deliver<K: Sink>(sink: &mut K, text: &[u8]) -> Result<(), Unwritten>
    ensures whole { OnOk result (Adds (K.has sink.old) (K.has sink.new) text.now) }
    ensures front { IsErrOf result Unwritten.SinkFailed → AddsProperFront (K.has sink.old) (K.has sink.new) text.now }
    ensures cause { IsErrOf result Unwritten.SinkFailed → Rose (K.faults sink.old) (K.faults sink.new) }
    ensures memory { IsErrOf result Unwritten.Memory → (K.has sink.new ≡ K.has sink.old) × (K.faults sink.new ≡ K.faults sink.old) }
{
    if sink.reserve(text.len()).is_err() {
        return Err(Unwritten::Memory);
    }
    match write_all(sink, text) {
        Ok(()) => Ok(()),
        Err(Failed) => Err(Unwritten::SinkFailed),
    }
}

// Writes the whole text into room that was reserved for it. Each write is offered all that is left.
// Where the sink fails, it has taken a front of the text, and not all of it.
fn write_all<K: Sink>(sink: &mut K, text: &[u8]) -> Result<(), Failed>
    requires { length text.now ≤ K.room sink.old }
    ensures whole { OnOk result (Adds (K.has sink.old) (K.has sink.new) text.now) }
    ensures front { OnErr result (AddsProperFront (K.has sink.old) (K.has sink.new) text.now) }
    ensures cause { OnErr result (Rose (K.faults sink.old) (K.faults sink.new)) }
    ensures never_falls { K.faults sink.old ≤ K.faults sink.new }
{
    let mut at = 0;
    while at < text.len() {
        at += sink.write(rest_of(text, at))?;
    }
    Ok(())
}

fn rest_of(text: &[u8], at: usize) -> &[u8]
    requires { at ≤ length text.now }
    ensures { result.now ≡ drop at text.now }
{
    &text[at..]
}
