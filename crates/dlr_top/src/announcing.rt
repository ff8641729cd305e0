ghost use Rattle.std.specs.Prelude.{◌≡◌, ◌≢◌, ◌++◌, ◌⊎◌, encode_utf8_all, IsTrue, OnOk};
ghost use Rattle.std.specs.Char.{is_ascii};
ghost use Rattle.std.specs.Fmt.{decimal};
ghost use Rattle.std.specs.List.{list_all};
ghost use Rattle.dlr_top.specs.Headline.{Announced};
ghost use Rattle.dlr_top.specs.Refusals.{cause_text, refusal_text, what_text};
ghost use Rattle.dlr_top.specs.Rendering.{AddsText};

use crate::report::{put_ascii, put_number};
use crate::status;
use byte_devices::{Sink, Unwritten, deliver};
use script_program::ScriptRefused;
use script_sites::What;
use std::alloc::{AllocError, Global};

/// Writes a line that takes the place of a report, and answers this status, or `MEMORY`.
pub(crate) fn announce<K: Sink>(sink: &mut K, line: &[u8], status: u8) -> u8
    requires { status ≢ 3 }
    ensures answer { (result ≡ status) ⊎ (result ≡ 3) }
    ensures announced { result ≡ status →
        Announced (K.has sink.old) (K.has sink.new) (K.faults sink.old) (K.faults sink.new) line.now }
    ensures memory { result ≡ 3 → (K.has sink.new ≡ K.has sink.old) × (K.faults sink.new ≡ K.faults sink.old) }
{
    match deliver(sink, line) {
        Ok(()) | Err(Unwritten::SinkFailed) => status,
        Err(Unwritten::Memory) => status::MEMORY,
    }
}

/// Writes the line of a refusal, and answers `REFUSED`, or `MEMORY`.
pub(crate) fn announce_refusal<K: Sink>(alloc: Global, sink: &mut K, cause: ScriptRefused) -> u8
    ensures answer { (result ≡ 6) ⊎ (result ≡ 3) }
    ensures announced { result ≡ 6 →
        Announced (K.has sink.old) (K.has sink.new) (K.faults sink.old) (K.faults sink.new) (encode_utf8_all
        (refusal_text cause)) }
    ensures memory { result ≡ 3 → (K.has sink.new ≡ K.has sink.old) × (K.faults sink.new ≡ K.faults sink.old) }
{
    let mut line = Vec::new(alloc);
    if render_refusal(cause, &mut line).is_err() {
        return status::MEMORY;
    }
    announce(sink, line.as_slice(), status::REFUSED)
}

/// Appends the line of a refusal.
fn render_refusal(cause: ScriptRefused, out: &mut Vec<u8>) -> Result<(), AllocError>
    ensures { OnOk result (AddsText out.old out.new (refusal_text cause)) }
{
    put_ascii("refused: ", out)?;
    render_cause(cause, out)?;
    put_ascii("\n", out)
}

/// Appends the cause, with its place.
fn render_cause(cause: ScriptRefused, out: &mut Vec<u8>) -> Result<(), AllocError>
    ensures { OnOk result (AddsText out.old out.new (cause_text cause)) }
{
    match cause {
        ScriptRefused::TooLong => put_ascii("TooLong", out),
        ScriptRefused::NotText(byte) => render_placed("NotText ", byte, out),
        ScriptRefused::BadToken(byte) => render_placed("BadToken ", byte, out),
        ScriptRefused::TooDeep(token) => render_placed("TooDeep ", token, out),
        ScriptRefused::Syntax(token) => render_placed("Syntax ", token, out),
        ScriptRefused::BadName(token) => render_placed("BadName ", token, out),
        ScriptRefused::TooMany(what) => {
            put_ascii("TooMany ", out)?;
            put_ascii(label_of(what), out)
        }
    }
}

/// Appends a name and a place.
fn render_placed(name: &str, place: u32, out: &mut Vec<u8>) -> Result<(), AllocError>
    requires { IsTrue (list_all is_ascii name.now) }
    ensures { OnOk result (AddsText out.old out.new (name.now ++ decimal place)) }
{
    put_ascii(name, out)?;
    put_number(u64::from(place), out)
}

/// What there are too many of.
fn label_of(what: What) -> &'static str
    ensures text { result.now ≡ what_text what }
    ensures ascii { IsTrue (list_all is_ascii result.now) }
{
    match what {
        What::Shared => "shared",
        What::Functions => "functions",
        What::Tasks => "tasks",
        What::Parameters => "parameters",
        What::Arguments => "arguments",
        What::Locals => "locals",
        What::Sites => "sites",
        What::Binders => "binders",
    }
}
