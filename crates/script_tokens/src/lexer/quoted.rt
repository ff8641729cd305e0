// Texts between quotation marks.
ghost use Rattle.std.specs.Prelude.{◌≡◌, ◌≢◌, ◌<◌, ◌↔◌, ℕ, true, [], ◌∷◌, ◌++◌, length, IsTrue, IfOk, IfSome, OnOk, MatchOption, string_bytes};
ghost use Rattle.std.specs.Str.{chars};
ghost use Rattle.dyn_value.specs.Texts.{escaped};
ghost use Rattle.script_tokens.specs.Lexemes.{stands_in_text, BeginsNoToken};
ghost use Rattle.script_tokens.specs.TextFronts.{IsFront, IsContent, BeginsQuoted, BeginsNoCharacter};

use super::front::Front;
use crate::token::Token;
use dyn_value::DynText;
use std::alloc::{AllocError, Global};

/// What stands after the quotation mark that begins a text.
#[derive(Drop)]
pub struct Content<'a> {
    /// The characters that are meant, as many as can be taken.
    pub characters: String,
    /// The text after them.
    pub rest: &'a [char],
}

/// The text between quotation marks at the front of a text; `None` where it does not end, is too long, or has a
/// character or an escape that it may not have.
pub fn quoted_front(alloc: Global, text: &[char]) -> Result<Option<Front>, AllocError>
    requires { BeginsQuoted text.now }
    ensures { IfOk result (λ o. MatchOption o (BeginsNoToken text.now) (λ f. IsFront text.now f)) }
{
    let content = content_of(alloc, &text[1..])?;
    if !begins_quoted(content.rest) {
        return Ok(None);
    }
    match DynText::from_str(alloc, content.characters.as_str())? {
        Some(quoted) => Ok(Some(Front {
            length: text.len() - content.rest.len() + 1,
            token: Some(Token::Text(quoted)),
        })),
        None => Ok(None),
    }
}

/// Whether a quotation mark stands first.
fn begins_quoted(text: &[char]) -> bool
    ensures { IsTrue result ↔ BeginsQuoted text.now }
{
    match text {
        ['"', ..] => true,
        _ => false,
    }
}

/// The characters of a text, up to what is none.
fn content_of(alloc: Global, inside: &[char]) -> Result<Content<'_>, AllocError>
    ensures { IfOk result (λ c. IsContent inside.now c) }
{
    let mut characters = String::new(alloc);
    let mut rest = inside;
    'inside: while let Some((character, more)) = character_at(rest) {
        add(&mut characters, character)?;
        rest = more;
    }
    Ok(Content { characters, rest })
}

/// Puts the character at the end.
fn add(characters: &mut String, character: char) -> Result<(), AllocError>
    ensures { OnOk result
        (chars (string_bytes characters.new) ≡ chars (string_bytes characters.old) ++ character ∷ []) }
{
    characters.push(character)
}

/// The character of a text that stands first, itself or by its escape, and what comes after it.
fn character_at(text: &[char]) -> Option<(char, &[char])>
    ensures written { MatchOption result (BeginsNoCharacter text.now) (λ f. text.now ≡ escaped f.0 ++ f.1.now) }
    ensures stands { IfSome result (λ f. stands_in_text f.0 ≡ true) }
    ensures shorter { IfSome result (λ f. length f.1.now < length text.now) }
{
    match text {
        ['\\', escape, rest @ ..] => match meaning_of(*escape) {
            Some(character) => Some((character, rest)),
            None => None,
        },
        [first, rest @ ..] => {
            if stands_for_itself(*first) {
                Some((*first, rest))
            } else {
                None
            }
        }
        [] => None,
    }
}

/// The character whose escape ends with this one.
fn meaning_of(escape: char) -> Option<char>
    ensures escaped { MatchOption result
        ((c : ℕ) → escaped c ≢ 92 ∷ escape ∷ [])
        (λ c. escaped c ≡ 92 ∷ escape ∷ []) }
    ensures stands { IfSome result (λ c. stands_in_text c ≡ true) }
{
    match escape {
        '"' => Some('"'),
        '\\' => Some('\\'),
        'n' => Some('\n'),
        't' => Some('\t'),
        _ => None,
    }
}

/// Whether a text may have this character as it is.
fn stands_for_itself(c: char) -> bool
    ensures { IsTrue result ↔ ((stands_in_text c ≡ true) × (escaped c ≡ c ∷ [])) }
{
    c >= ' ' && c != '"' && c != '\\'
}
