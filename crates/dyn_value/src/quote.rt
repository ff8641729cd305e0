// Quoted texts: a text between quotation marks, with its escapes.
ghost use Rattle.std.specs.Prelude.{◌≡◌, ◌++◌, IfOk, OnOk, MatchOption, ◌∷◌, [], string_bytes};
ghost use Rattle.std.specs.Str.{chars};
ghost use Rattle.dyn_value.specs.Texts.{escaped, quoted_text};

use crate::text::DynText;
use std::alloc::{AllocError, Global};

/// The text between quotation marks, as a script writes it.
pub(crate) fn quoted(alloc: Global, text: &DynText) -> Result<String, AllocError>
    ensures { IfOk result (λ q. chars (string_bytes q) ≡ quoted_text text.now) }
{
    let mut quoted = String::from_str(alloc, "\"")?;
    for character in text.as_str().chars() {
        push_escaped(&mut quoted, character)?;
    }
    quoted.push('"')?;
    Ok(quoted)
}

/// Appends the character, or its escape.
fn push_escaped(out: &mut String, character: char) -> Result<(), AllocError>
    ensures { OnOk result
        (chars (string_bytes out.new) ≡ chars (string_bytes out.old) ++ escaped character) }
{
    match escape(character) {
        Some(escape) => out.push_str(escape),
        None => out.push(character),
    }
}

/// The escape of a character that has one.
fn escape(character: char) -> Option<&'static str>
    ensures { MatchOption result
        (escaped character ≡ character ∷ [])
        (λ e. chars e.now ≡ escaped character) }
{
    match character {
        '"' => Some("\\\""),
        '\\' => Some("\\\\"),
        '\n' => Some("\\n"),
        '\t' => Some("\\t"),
        _ => None,
    }
}
