ghost use Rattle.std.specs.Prelude.{◌↔◌, ◌^◌, ◌<◌, ℕ, List, length, IsTrue, IsUtf8, IfOk, MatchOption};
ghost use Rattle.std.specs.Str.{IsValidUpTo};
ghost use Rattle.script_places.specs.Points.{HasTokensAt, HasCharacterAt, IsNumbered, IsTokenAt, IsTokenOrEndAt, PointsAt};

use crate::refusal::Refusal;
use script_tokens::{LexFault, PlacedTokens, characters_have_one_list_of_tokens, placed_tokens};
use std::alloc::{AllocError, Global};

/// The byte of the script at which a refusal points; `None` where the script has no such place.
pub fn place_of_refusal(
    alloc: Global,
    bytes: &[u8],
    refusal: Refusal,
) -> Result<Option<u32>, AllocError>
    requires { length bytes.now < 2 ^ 32 }
    ensures { IfOk result (λ o. MatchOption o
        ((place : ℕ) → PointsAt bytes.now refusal place → ⊥)
        (λ place. PointsAt bytes.now refusal place)) }
{
    match refusal {
        Refusal::NotText(place) => {
            if is_broken_at(bytes, place) {
                Ok(Some(place))
            } else {
                Ok(None)
            }
        }
        Refusal::BadToken(place) => {
            if has_character_at(bytes, place) {
                Ok(Some(place))
            } else {
                Ok(None)
            }
        }
        Refusal::TooDeep(number) => token_place(alloc, bytes, number),
        Refusal::BadName(number) => token_place(alloc, bytes, number),
        Refusal::Syntax(number) => token_or_end_place(alloc, bytes, number),
    }
}

/// Whether at this byte the first sequence begins that is no UTF-8.
fn is_broken_at(bytes: &[u8], place: u32) -> bool
    ensures { IsTrue result ↔ IsValidUpTo bytes.now place }
{
    match str::from_utf8(bytes) {
        Ok(_) => false,
        Err(error) => error.valid_up_to() == place as usize,
    }
}

/// Whether the bytes are a text, of which a character begins at this byte.
fn has_character_at(bytes: &[u8], place: u32) -> bool
    ensures { IsTrue result ↔ HasCharacterAt bytes.now place }
{
    let place = place as usize;
    place < bytes.len() && is_text(bytes) && is_text(&bytes[..place])
}

fn is_text(bytes: &[u8]) -> bool
    ensures { IsTrue result ↔ IsUtf8 bytes.now }
{
    str::from_utf8(bytes).is_ok()
}

/// The byte at which the token of this number begins.
fn token_place(alloc: Global, bytes: &[u8], number: u32) -> Result<Option<u32>, AllocError>
    requires { length bytes.now < 2 ^ 32 }
    ensures { IfOk result (λ o. MatchOption o
        ((place : ℕ) → IsTokenAt bytes.now number place → ⊥)
        (λ place. IsTokenAt bytes.now number place)) }
{
    characters_have_one_list_of_tokens();
    match token_places(alloc, bytes)? {
        Some(places) => Ok(numbered(places.as_slice(), number)),
        None => Ok(None),
    }
}

/// The byte at which the token of this number begins; of the number of all tokens the end.
fn token_or_end_place(alloc: Global, bytes: &[u8], number: u32) -> Result<Option<u32>, AllocError>
    requires { length bytes.now < 2 ^ 32 }
    ensures { IfOk result (λ o. MatchOption o
        ((place : ℕ) → IsTokenOrEndAt bytes.now number place → ⊥)
        (λ place. IsTokenOrEndAt bytes.now number place)) }
{
    characters_have_one_list_of_tokens();
    match token_places(alloc, bytes)? {
        Some(mut places) => {
            places.push(bytes.len() as u32)?;
            Ok(numbered(places.as_slice(), number))
        }
        None => Ok(None),
    }
}

/// The bytes at which the tokens begin; `None` where the bytes have no tokens.
fn token_places(alloc: Global, bytes: &[u8]) -> Result<Option<Vec<u32>>, AllocError>
    requires { length bytes.now < 2 ^ 32 }
    ensures { IfOk result (λ o. MatchOption o
        ((places : List ℕ) → HasTokensAt bytes.now places → ⊥)
        (λ places. HasTokensAt bytes.now places.items)) }
{
    match placed_tokens(alloc, bytes) {
        Ok(PlacedTokens { places, .. }) => Ok(Some(places)),
        Err(LexFault::Refused(_)) => Ok(None),
        Err(LexFault::Memory) => Err(AllocError),
    }
}

/// Of the places the one with this number.
fn numbered(places: &[u32], number: u32) -> Option<u32>
    ensures { MatchOption result
        ((place : ℕ) → IsNumbered places.now number place → ⊥)
        (λ place. IsNumbered places.now number place) }
{
    places.get(number as usize).copied()
}
