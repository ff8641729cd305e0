ghost use Rattle.std.specs.Prelude.{◌<◌, ◌^◌, OnOk, OnErr, IsTrue};
ghost use Rattle.std.specs.Char.{is_ascii};
ghost use Rattle.std.specs.Fmt.{decimal};
ghost use Rattle.std.specs.List.{list_all};
ghost use Rattle.task_run.specs.Stores.{Begins};
ghost use Rattle.dlr_top.specs.Rendering.{AddsText};

use dyn_value::{DynText, Value};
use std::alloc::AllocError;

/// Appends a text, as UTF-8.
pub(crate) fn put_text(text: &DynText, out: &mut Vec<u8>) -> Result<(), AllocError>
    ensures appended { OnOk result (AddsText out.old out.new text.now) }
    ensures begins { OnErr result (Begins out.old.items out.new.items) }
{
    out.extend_from_slice(text.as_str().as_bytes())
}

/// Appends a text in ASCII.
pub(crate) fn put_ascii(text: &str, out: &mut Vec<u8>) -> Result<(), AllocError>
    requires { IsTrue (list_all is_ascii text.now) }
    ensures appended { OnOk result (AddsText out.old out.new text.now) }
    ensures begins { OnErr result (Begins out.old.items out.new.items) }
{
    out.extend_from_slice(text.as_bytes())
}

/// Appends a number in decimal digits.
pub(crate) fn put_number(number: u64, out: &mut Vec<u8>) -> Result<(), AllocError>
    requires { number < 2 ^ 63 }
    ensures appended { OnOk result (AddsText out.old out.new (decimal number)) }
    ensures begins { OnErr result (Begins out.old.items out.new.items) }
{
    Value::Int(number as i64).print_to(out)
}
