ghost use Rattle.std.specs.Prelude.{◌≡◌, ◌≢◌, ◌≤◌, ◌↔◌, [], ◌∷◌, length, IsTrue, IfOk, MatchOption, string_bytes, encode_utf8_all};
ghost use Rattle.std.specs.List.{prefix_len};
ghost use Rattle.unicode_ident.specs.Ident.{is_xid_continue};
ghost use Rattle.script_tokens.specs.declared.token.Keyword.{Keyword};
ghost use Rattle.script_tokens.specs.Words.{keyword_text};
ghost use Rattle.script_tokens.specs.Lexemes.{IsWord, Means, BeginsNoToken};
ghost use Rattle.script_tokens.specs.TextFronts.{IsFront, BeginsWord, MeansNothing};

use super::front::Front;
use crate::token::{Keyword, Token};
use dyn_value::DynText;
use std::alloc::{AllocError, Global};

/// The most bytes that a name may have.
const MOST_NAME_BYTES: usize = 64;

/// The name or keyword at the front of a text; `None` where the word is too long.
pub fn word_front(alloc: Global, text: &[char]) -> Result<Option<Front>, AllocError>
    requires { BeginsWord text.now }
    ensures { IfOk result (λ o. MatchOption o (BeginsNoToken text.now) (λ f. IsFront text.now f)) }
{
    let length = word_length(text);
    match word_token(alloc, &text[..length])? {
        Some(token) => Ok(Some(Front {
            length,
            token: Some(token),
        })),
        None => Ok(None),
    }
}

/// How many characters at the front may continue a word.
fn word_length(text: &[char]) -> usize
    ensures { result ≡ prefix_len is_xid_continue text.now }
{
    text.iter()
        .take_while(|c| unicode_ident::is_xid_continue(**c))
        .count()
}

/// The token that a word means; `None` where it is too long.
fn word_token(alloc: Global, word: &[char]) -> Result<Option<Token>, AllocError>
    requires { IsWord word.now }
    ensures { IfOk result (λ o. MatchOption o (MeansNothing word.now) (λ t. Means word.now t)) }
{
    if !is_short(word) {
        return Ok(None);
    }
    let text = text_of(alloc, word)?;
    if let Some(keyword) = keyword_of(text.as_str()) {
        return Ok(Some(Token::Word(keyword)));
    }
    match DynText::from_str(alloc, text.as_str())? {
        Some(name) => Ok(Some(Token::Name(name))),
        None => unreachable!(),
    }
}

/// Whether a word has at most as many bytes as a name may have. It looks no further than that.
fn is_short(word: &[char]) -> bool
    ensures { IsTrue result ↔ (length (encode_utf8_all word.now) ≤ 64) }
{
    let mut bytes = 0;
    for c in word {
        bytes += c.len_utf8();
        if bytes > MOST_NAME_BYTES {
            return false;
        }
    }
    true
}

/// The characters as a text.
fn text_of(alloc: Global, characters: &[char]) -> Result<String, AllocError>
    ensures { IfOk result (λ s. string_bytes s ≡ encode_utf8_all characters.now) }
{
    characters.iter().copied().collect(alloc)
}

/// The keyword with this text.
fn keyword_of(text: &str) -> Option<Keyword>
    ensures { MatchOption result ((w : Keyword) → text.now ≢ keyword_text w) (λ w. text.now ≡ keyword_text w) }
{
    match text {
        "shared" => Some(Keyword::Shared),
        "fn" => Some(Keyword::Fn),
        "task" => Some(Keyword::Task),
        "let" => Some(Keyword::Let),
        "delete" => Some(Keyword::Delete),
        "if" => Some(Keyword::If),
        "else" => Some(Keyword::Else),
        "while" => Some(Keyword::While),
        "return" => Some(Keyword::Return),
        "print" => Some(Keyword::Print),
        "try" => Some(Keyword::Try),
        "catch" => Some(Keyword::Catch),
        "new" => Some(Keyword::New),
        "nil" => Some(Keyword::Nil),
        "true" => Some(Keyword::True),
        "false" => Some(Keyword::False),
        "int" => Some(Keyword::Int),
        "text" => Some(Keyword::Text),
        "bool" => Some(Keyword::Bool),
        _ => None,
    }
}
