ghost use Rattle.std.specs.Prelude.{◌≡◌, ◌≢◌, [], ◌∷◌, MatchOption};
ghost use Rattle.script_tokens.specs.declared.token.Symbol.{Symbol};
ghost use Rattle.script_tokens.specs.Words.{symbol_text};
ghost use Rattle.script_tokens.specs.Lexemes.{BeginsNoToken};
ghost use Rattle.script_tokens.specs.TextFronts.{IsFront, BeginsOther, BeginsPair, BeginsNoPair};

use super::front::Front;
use crate::token::{Symbol, Token};

/// The symbol at the front of a text; `None` where there is none.
pub fn symbol_front(text: &[char]) -> Option<Front>
    requires { BeginsOther text.now }
    ensures { MatchOption result (BeginsNoToken text.now) (λ f. IsFront text.now f) }
{
    if let Some(symbol) = symbol_of_two(text) {
        return Some(Front {
            length: 2,
            token: Some(Token::Mark(symbol)),
        });
    }
    let symbol = symbol_of_one(text[0])?;
    Some(Front {
        length: 1,
        token: Some(Token::Mark(symbol)),
    })
}

/// The symbol of two characters at the front of a text: each ends in `=`.
fn symbol_of_two(text: &[char]) -> Option<Symbol>
    ensures { MatchOption result (BeginsNoPair text.now) (λ s. BeginsPair s text.now) }
{
    match text {
        [first, '=', ..] => symbol_before_equal(*first),
        _ => None,
    }
}

/// The symbol of this character and `=`.
fn symbol_before_equal(first: char) -> Option<Symbol>
    ensures { MatchOption result ((s : Symbol) → symbol_text s ≢ first ∷ 61 ∷ []) (λ s. symbol_text s ≡ first ∷ 61 ∷ []) }
{
    match first {
        '=' => Some(Symbol::EqualEqual),
        '!' => Some(Symbol::BangEqual),
        '<' => Some(Symbol::LessEqual),
        '>' => Some(Symbol::GreaterEqual),
        _ => None,
    }
}

/// The symbol of this character.
fn symbol_of_one(first: char) -> Option<Symbol>
    ensures { MatchOption result ((s : Symbol) → symbol_text s ≢ first ∷ []) (λ s. symbol_text s ≡ first ∷ []) }
{
    match first {
        '(' => Some(Symbol::OpenParenthesis),
        ')' => Some(Symbol::CloseParenthesis),
        '{' => Some(Symbol::OpenBrace),
        '}' => Some(Symbol::CloseBrace),
        '[' => Some(Symbol::OpenBracket),
        ']' => Some(Symbol::CloseBracket),
        ',' => Some(Symbol::Comma),
        ';' => Some(Symbol::Semicolon),
        '.' => Some(Symbol::Dot),
        ':' => Some(Symbol::Colon),
        '=' => Some(Symbol::Equal),
        '<' => Some(Symbol::Less),
        '>' => Some(Symbol::Greater),
        '+' => Some(Symbol::Plus),
        '-' => Some(Symbol::Minus),
        '*' => Some(Symbol::Star),
        '/' => Some(Symbol::Slash),
        '%' => Some(Symbol::Percent),
        '&' => Some(Symbol::Ampersand),
        '|' => Some(Symbol::Bar),
        '!' => Some(Symbol::Bang),
        _ => None,
    }
}
