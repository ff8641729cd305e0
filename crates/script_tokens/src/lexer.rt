ghost use Rattle.std.specs.Prelude.{◌≡◌, ◌<◌, ◌≤◌, ◌^◌, ℕ, List, length, IfOk, IfErr, IsUtf8};
ghost use Rattle.std.specs.Str.{chars};
ghost use Rattle.script_tokens.specs.declared.token.Token.{Token};
ghost use Rattle.script_tokens.specs.Lexemes.{AreTokensAt};
ghost use Rattle.script_tokens.specs.Refusals.{AreTokensOf, Faults, FaultsAtAnyDepth};

mod characters;
mod front;
mod integer;
mod quoted;
mod symbol;
#[cfg(test)]
mod tests;
mod word;

use crate::shallow::too_deep_at;
use crate::token::Token;
use characters::{Unlexed, lex_characters};
use std::alloc::{AllocError, Global};
use thiserror::Error;

/// The tokens of a script, and for each the byte at which it begins, counted from 0.
#[derive(Debug, Drop)]
pub struct PlacedTokens {
    pub tokens: Vec<Token>,
    pub places: Vec<u32>,
}

/// Why bytes have no tokens. Bytes are counted from 0, and so are tokens.
#[derive(Clone, Copy, Debug, PartialEq, Eq)]
pub enum LexRefused {
    /// The bytes are no UTF-8: the first sequence that is broken begins at this byte.
    NotText(u32),
    /// At this byte begins the first thing that is no blank, no comment and no token: a number that is too great or
    /// has a leading zero, a text that is not ended, too long or has a wrong character or escape, a name that is too
    /// long, or a character that begins nothing.
    BadToken(u32),
    /// The token of this number is the first opening bracket at which more than [`crate::MOST_OPEN_BRACKETS`] stand
    /// open.
    TooDeep(u32),
}

/// Why [`lex`] gave no tokens.
#[derive(Debug, Drop, Error)]
pub enum LexFault {
    /// The bytes have none.
    #[error("the bytes have no tokens")]
    Refused(LexRefused),
    /// Memory was refused.
    #[error("out of memory")]
    Memory,
}

impl From<AllocError> for LexFault {
    ghost use Rattle.std.specs.Prelude.{◌≡◌};
    ghost use Rattle.script_tokens.specs.declared.lexer.LexFault.TheVariants as fault;

    ghost from_gives = { λ _ e. e ≡ fault.Memory };

    fn from(_error: AllocError) -> LexFault {
        LexFault::Memory
    }
}

/// The tokens of a script, each with the byte at which it begins.
///
/// # Errors
///
/// [`LexFault::Refused`] says why the bytes have no tokens: of the causes of [`LexRefused`] the first that holds, each
/// judged over all bytes before the next. [`LexFault::Memory`] comes where memory was refused, whatever the bytes are.
pub fn lex(alloc: Global, bytes: &[u8]) -> Result<PlacedTokens, LexFault>
    requires { length bytes.now < 2 ^ 32 }
    ensures tokens { IfOk result (λ t. AreTokensOf bytes.now t.tokens.items t.places.items) }
    ensures few { IfOk result (λ t. length t.tokens.items ≤ length bytes.now) }
    ensures refused { IfErr result (λ f. Faults bytes.now f) }
{
    let placed = placed_tokens(alloc, bytes)?;
    match too_deep_at(placed.tokens.as_slice()) {
        None => Ok(placed),
        Some(number) => Err(LexFault::Refused(LexRefused::TooDeep(number as u32))),
    }
}

/// The tokens of a script, each with the byte at which it begins, however deep its brackets stand.
///
/// # Errors
///
/// Those of [`lex`], but for [`LexRefused::TooDeep`], which does not come.
pub fn placed_tokens(alloc: Global, bytes: &[u8]) -> Result<PlacedTokens, LexFault>
    requires { length bytes.now < 2 ^ 32 }
    ensures text { IfOk result (λ _. IsUtf8 bytes.now) }
    ensures tokens { IfOk result (λ t. AreTokensAt (chars bytes.now) t.tokens.items t.places.items) }
    ensures few { IfOk result (λ t. length t.tokens.items ≤ length bytes.now) }
    ensures refused { IfErr result (λ f. FaultsAtAnyDepth bytes.now f) }
{
    let characters = characters_of(alloc, bytes)?;
    match lex_characters(alloc, characters.as_slice()) {
        Ok(placed) => Ok(placed),
        Err(Unlexed::Bad(place)) => Err(LexFault::Refused(LexRefused::BadToken(place))),
        Err(Unlexed::Memory) => Err(LexFault::Memory),
    }
}

/// The characters of the bytes; refused exactly where they are no UTF-8.
fn characters_of(alloc: Global, bytes: &[u8]) -> Result<Vec<char>, LexFault>
    requires { length bytes.now < 2 ^ 32 }
    ensures text { IfOk result (λ _. IsUtf8 bytes.now) }
    ensures characters { IfOk result (λ cs. cs.items ≡ chars bytes.now) }
    ensures few { IfOk result (λ cs. length cs.items ≤ length bytes.now) }
    ensures refused { IfErr result (λ f. FaultsAtAnyDepth bytes.now f) }
{
    match str::from_utf8(bytes) {
        Ok(text) => Ok(text.chars().collect(alloc)?),
        Err(error) => Err(LexFault::Refused(LexRefused::NotText(error.valid_up_to() as u32))),
    }
}
