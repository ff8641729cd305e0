// Texts that begin with a label in ASCII: the label alone, or the label and its parts.
ghost use Rattle.std.specs.Prelude.{◌≡◌, ◌++◌, ◌∷◌, ◌≤◌, length, IfOk, IsTrue, string_bytes, string_len};
ghost use Rattle.std.specs.Char.{is_ascii};
ghost use Rattle.std.specs.Fmt.{decimal, signed_decimal};
ghost use Rattle.std.specs.List.{list_all};
ghost use Rattle.std.specs.Str.{chars};
ghost use Rattle.dyn_value.specs.Texts.{kind_name, quoted_text};

use crate::quote::quoted;
use crate::text::DynText;
use crate::value::Kind;
use std::alloc::{AllocError, Global};

/// The label alone.
pub(crate) fn alone(alloc: Global, label: &str) -> Result<String, AllocError>
    requires ascii { IsTrue (list_all is_ascii label.now) }
    requires short { length label.now ≤ 16 }
    ensures characters { IfOk result (λ s. chars (string_bytes s) ≡ label.now) }
    ensures fits { IfOk result (λ s. string_len s ≤ 65536) }
{
    String::from_str(alloc, label)
}

/// A number in decimal digits, with `-` before a negative one.
pub(crate) fn number(alloc: Global, number: i64) -> Result<String, AllocError>
    ensures characters { IfOk result (λ s. chars (string_bytes s) ≡ signed_decimal number) }
    ensures fits { IfOk result (λ s. string_len s ≤ 65536) }
{
    format!(in alloc; "{number}")
}

/// The label, and a number.
pub(crate) fn with_number(alloc: Global, label: &str, number: u32) -> Result<String, AllocError>
    requires ascii { IsTrue (list_all is_ascii label.now) }
    requires short { length label.now ≤ 16 }
    ensures characters { IfOk result (λ s. chars (string_bytes s) ≡ label.now ++ decimal number) }
    ensures fits { IfOk result (λ s. string_len s ≤ 65536) }
{
    format!(in alloc; "{label}{number}")
}

/// The label, and two numbers with a space between them.
pub(crate) fn with_numbers(
    alloc: Global,
    label: &str,
    first: u32,
    second: u32,
) -> Result<String, AllocError>
    requires { IsTrue (list_all is_ascii label.now) }
    ensures { IfOk result (λ s.
        chars (string_bytes s) ≡ label.now ++ decimal first ++ 32 ∷ decimal second) }
{
    format!(in alloc; "{label}{first} {second}")
}

/// The label, and the name of a kind.
pub(crate) fn with_kind(alloc: Global, label: &str, kind: Kind) -> Result<String, AllocError>
    requires { IsTrue (list_all is_ascii label.now) }
    ensures { IfOk result (λ s. chars (string_bytes s) ≡ label.now ++ kind_name kind) }
{
    let kind = kind.name();
    format!(in alloc; "{label}{kind}")
}

/// The label, and a quoted text.
pub(crate) fn with_text(alloc: Global, label: &str, text: &DynText) -> Result<String, AllocError>
    requires { IsTrue (list_all is_ascii label.now) }
    ensures { IfOk result (λ s. chars (string_bytes s) ≡ label.now ++ quoted_text text.now) }
{
    let text = quoted(alloc, text)?;
    format!(in alloc; "{label}{text}")
}
