ghost use Rattle.std.specs.Prelude.{◌≡◌, ◌↔◌, ◌<◌, ◌≤◌, ◌∷◌, [], ◌++◌, ◌+◌, length, drop, pos, encode_utf8_all, IfOk, IfSome, OnOk, OnErr, IsTrue, MatchOption, string_bytes, string_len};
ghost use Rattle.std.specs.List.{IsDistinct, list_any};
ghost use Rattle.std.specs.Str.{bytes_eq, chars};
ghost use Rattle.dyn_value.specs.Proper.{IsText};
ghost use Rattle.dyn_value.specs.Texts.{character_at, quoted_text};

#[cfg(test)]
mod tests;

use crate::quote::quoted;
use std::alloc::{AllocError, Global};
use std::marker::Model;
use std::sync::ArcStr;

/// A text of the script language: Unicode characters, at most [`DynText::MOST_BYTES`] bytes as UTF-8.
///
/// Contracts see it as the list of its characters. Copies share the characters.
#[derive(Debug, Drop)]
pub struct DynText {
    text: ArcStr,
}

impl Model for DynText {
    ghost use Rattle.std.specs.Prelude.{List, ℕ, ◌≤◌, length};
    ghost use Rattle.std.specs.Arc.{arc_str_bytes};
    ghost use Rattle.std.specs.Str.{chars};

    ghost Value = { List ℕ };

    ghost view = { λ t. chars (arc_str_bytes t.text) };

    ghost invariant = { λ t. length (arc_str_bytes t.text) ≤ 65536 };
}

impl DynText {
    /// The most bytes that a text may have.
    pub const MOST_BYTES: usize = 65536;

    /// The text with these characters; `None` exactly where it has more than [`DynText::MOST_BYTES`] bytes.
    pub fn from_str(alloc: Global, text: &str) -> Result<Option<DynText>, AllocError>
        ensures characters { IfOk result (λ o. MatchOption o (65536 < length text.now) (λ t. t ≡ chars text.now)) }
        ensures fits { IfOk result (λ o. MatchOption o (65536 < length text.now) (λ _. length text.now ≤ 65536)) }
        ensures proper { IfOk result (λ o. IfSome o IsText) }
    {
        if text.len() > DynText::MOST_BYTES {
            return Ok(None);
        }
        let text = ArcStr::from_str(alloc, text)?;
        Ok(Some(DynText { text }))
    }

    /// The text of a string that is short enough. The one error is want of memory.
    pub(crate) fn from_string(text: String) -> Result<DynText, AllocError>
        requires { string_len text ≤ 65536 }
        ensures characters { IfOk result (λ t. t ≡ chars (string_bytes text)) }
        ensures proper { IfOk result IsText }
    {
        let text = ArcStr::from_string(text)?;
        Ok(DynText { text })
    }

    /// The text as UTF-8.
    pub fn as_str(&self) -> &str
        ensures bytes { result.now ≡ encode_utf8_all self.now }
        ensures proper { IsText self.now }
    {
        self.text.as_str()
    }

    /// The text as a string of its own.
    pub(crate) fn to_string(&self, alloc: Global) -> Result<String, AllocError>
        ensures characters { IfOk result (λ s. chars (string_bytes s) ≡ self.now) }
        ensures fits { IfOk result (λ s. string_len s ≤ 65536) }
    {
        String::from_str(alloc, self.text.as_str())
    }

    /// An equal text, which shares the characters: no byte is copied, and no memory is taken.
    pub fn copy(&self) -> Result<DynText, AllocError>
        ensures { IfOk result (λ t. t ≡ self.now) }
    {
        let text = self.text.clone()?;
        Ok(DynText { text })
    }

    /// The number of characters.
    pub fn length(&self) -> i64
        ensures { result ≡ pos (length self.now) }
    {
        self.text.as_str().chars().count() as i64
    }

    /// The text of the one character at the place `index`, counted from 0; `None` exactly where the index
    /// is below 0 or not below the number of characters. The one error is want of memory.
    pub fn char_at(&self, alloc: Global, index: i64) -> Result<Option<DynText>, AllocError>
        ensures character { IfOk result (λ o. o ≡ character_at self.now index) }
        ensures proper { IfOk result (λ o. IfSome o IsText) }
    {
        let Ok(place) = usize::try_from(index) else {
            return Ok(None);
        };
        match self.text.as_str().chars().nth(place) {
            Some(character) => Ok(Some(DynText::from_char(alloc, character)?)),
            None => Ok(None),
        }
    }

    /// The text of one character.
    fn from_char(alloc: Global, character: char) -> Result<DynText, AllocError>
        ensures characters { IfOk result (λ t. t ≡ character ∷ []) }
        ensures proper { IfOk result IsText }
    {
        let mut text = String::new(alloc);
        text.push(character)?;
        let alone = DynText::from_string(text)?;
        Ok(alone)
    }

    /// Whether the two texts have the same characters.
    pub fn same(&self, other: &DynText) -> bool
        ensures { IsTrue result ↔ (self.now ≡ other.now) }
    {
        self.text.as_str() == other.text.as_str()
    }

    /// Appends the text between quotation marks, as UTF-8, with the escapes `\"`, `\\`, `\n` and `\t`. Where
    /// memory is refused, `out` stays as it was.
    pub fn quote_to(&self, out: &mut Vec<u8>) -> Result<(), AllocError>
        ensures appended { OnOk result (out.new.items ≡ out.old.items ++ encode_utf8_all (quoted_text self.now)) }
        ensures refused { OnErr result (out.new.items ≡ out.old.items) }
    {
        let text = quoted(*out.allocator(), self)?;
        out.extend_from_slice(text.as_bytes())
    }

    /// This text with `next` after it; `None` exactly where that has more than
    /// [`DynText::MOST_BYTES`] bytes.
    pub(crate) fn join(&self, alloc: Global, next: &DynText) -> Result<Option<DynText>, AllocError>
        ensures characters { IfOk result (λ o. MatchOption o
            (65536 < length (encode_utf8_all (self.now ++ next.now)))
            (λ t. t ≡ self.now ++ next.now)) }
        ensures fits { IfOk result (λ o. MatchOption o
            (65536 < length (encode_utf8_all (self.now ++ next.now)))
            (λ _. length (encode_utf8_all (self.now ++ next.now)) ≤ 65536)) }
    {
        let bytes = self.text.len() + next.text.len();
        if bytes > DynText::MOST_BYTES {
            return Ok(None);
        }
        let mut text = String::with_capacity(alloc, bytes)?;
        text.push_str(self.text.as_str())?;
        text.push_str(next.text.as_str())?;
        let joined = DynText::from_string(text)?;
        Ok(Some(joined))
    }
}

/// Whether the text is one of these.
pub fn is_among(texts: &[DynText], text: &DynText) -> bool
    ensures { result ≡ list_any (bytes_eq text.now) texts.now }
{
    texts.iter().any(|other| text.same(other))
}

/// Whether no text stands among these twice.
pub fn are_distinct(texts: &[DynText]) -> bool
    ensures { IsTrue result ↔ IsDistinct bytes_eq texts.now }
{
    for (place, text) in texts.iter().enumerate() {
        if is_among(after(texts, place), text) {
            return false;
        }
    }
    true
}

/// The texts after this place.
fn after(texts: &[DynText], place: usize) -> &[DynText]
    requires { place < length texts.now }
    ensures { result.now ≡ drop (place + 1) texts.now }
{
    &texts[place + 1..]
}
