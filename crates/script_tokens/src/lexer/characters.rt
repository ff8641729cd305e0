// From characters to tokens: the row of pieces that a text is.
ghost use Rattle.std.specs.Prelude.{◌≡◌, ◌≤◌, ◌<◌, ◌^◌, ◌++◌, length, drop, IfOk, IfErr, OnOk};
ghost use Rattle.script_tokens.specs.LexerStops.{Unlexes};
ghost use Rattle.script_tokens.specs.Lexemes.{AreTokensAt, byte_count};
ghost use Rattle.script_tokens.specs.TextFronts.{tokens_of, places_of};

use super::PlacedTokens;
use super::front::front_of;
use crate::token::Token;
use std::alloc::{AllocError, Global};

/// Why characters gave no tokens.
#[derive(Drop)]
pub enum Unlexed {
    /// What begins at this byte is no blank, no comment and no token.
    Bad(u32),
    /// Memory was refused.
    Memory,
}

impl From<AllocError> for Unlexed {
    ghost use Rattle.std.specs.Prelude.{◌≡◌};
    ghost use Rattle.script_tokens.specs.declared.lexer.characters.Unlexed.TheVariants as unlexed;

    ghost from_gives = { λ _ e. e ≡ unlexed.Memory };

    fn from(_error: AllocError) -> Unlexed {
        Unlexed::Memory
    }
}

/// The tokens of a text, each with the byte at which it begins; or the byte at which the first thing begins that is
/// none.
pub fn lex_characters(alloc: Global, text: &[char]) -> Result<PlacedTokens, Unlexed>
    requires { byte_count text.now < 2 ^ 32 }
    ensures tokens { IfOk result (λ t. AreTokensAt text.now t.tokens.items t.places.items) }
    ensures few { IfOk result (λ t. length t.tokens.items ≤ length text.now) }
    ensures stop { IfErr result (λ u. Unlexes text.now u) }
{
    let mut placed = PlacedTokens {
        tokens: Vec::new(alloc),
        places: Vec::new(alloc),
    };
    let mut at = 0;
    let mut place = 0;
    while at < text.len() {
        let rest = rest_of(text, at);
        match front_of(alloc, rest)? {
            None => return Err(Unlexed::Bad(place)),
            Some(found) => {
                let bytes = bytes_of(&rest[..found.length]);
                at += found.length;
                keep(&mut placed, found.token, place)?;
                place += bytes;
            }
        }
    }
    Ok(placed)
}

/// Puts the token, where there is one, at the end, and its place.
fn keep(placed: &mut PlacedTokens, token: Option<Token>, place: u32) -> Result<(), AllocError>
    ensures tokens { OnOk result (placed.new.tokens.items ≡ placed.old.tokens.items ++ tokens_of token) }
    ensures places { OnOk result (placed.new.places.items ≡ placed.old.places.items ++ places_of token place) }
{
    if let Some(token) = token {
        placed.tokens.push(token)?;
        placed.places.push(place)?;
    }
    Ok(())
}

/// The text from this character on.
fn rest_of(text: &[char], at: usize) -> &[char]
    requires { at ≤ length text.now }
    ensures { result.now ≡ drop at text.now }
{
    &text[at..]
}

/// How many bytes the characters have.
fn bytes_of(characters: &[char]) -> u32
    requires { byte_count characters.now < 2 ^ 32 }
    ensures { result ≡ byte_count characters.now }
{
    let mut bytes = 0;
    for c in characters {
        bytes += c.len_utf8() as u32;
    }
    bytes
}
