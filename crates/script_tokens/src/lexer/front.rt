ghost use Rattle.std.specs.Prelude.{◌≡◌, ◌<◌, ◌==◌, ◌||◌, ◌≢◌, not, [], length, IfOk, MatchOption};
ghost use Rattle.std.specs.List.{prefix_len};
ghost use Rattle.script_tokens.specs.Lexemes.{is_blank, starts_word, BeginsNoToken};
ghost use Rattle.script_tokens.specs.TextFronts.{IsFront};

use super::integer::integer_front;
use super::quoted::quoted_front;
use super::symbol::symbol_front;
use super::word::word_front;
use crate::token::Token;
use std::alloc::{AllocError, Global};

/// What stands at the front of a text: a blank, a comment or a token.
#[derive(Drop)]
pub struct Front {
    /// How many characters it has.
    pub length: usize,
    /// The token, if it is one.
    pub token: Option<Token>,
}

/// What stands at the front of a text; `None` where that is no blank, no comment and no token.
pub fn front_of(alloc: Global, text: &[char]) -> Result<Option<Front>, AllocError>
    requires { text.now ≢ [] }
    ensures { IfOk result (λ o. MatchOption o (BeginsNoToken text.now) (λ f. IsFront text.now f)) }
{
    let first = text[0];
    if is_blank(first) {
        Ok(Some(Front {
            length: 1,
            token: None,
        }))
    } else if first == '#' {
        Ok(Some(Front {
            length: comment_length(text),
            token: None,
        }))
    } else if first == '"' {
        quoted_front(alloc, text)
    } else if starts_word(first) {
        word_front(alloc, text)
    } else if first.is_ascii_digit() {
        Ok(integer_front(text))
    } else {
        Ok(symbol_front(text))
    }
}

fn is_blank(c: char) -> bool
    ensures { result ≡ is_blank c }
{
    matches!(c, ' ' | '\t' | '\n' | '\r')
}

fn starts_word(c: char) -> bool
    ensures { result ≡ starts_word c }
{
    unicode_ident::is_xid_start(c) || c == '_'
}

/// How many characters come before the first line feed.
fn comment_length(text: &[char]) -> usize
    ensures { result ≡ prefix_len (λ c. not (c == 10)) text.now }
{
    text.iter().take_while(|c| **c != '\n').count()
}
