ghost use Rattle.std.specs.Prelude.{◌↔◌, List, ◌∷◌, MatchOption};
ghost use Rattle.script_tokens.specs.declared.token.Token.{Token};
ghost use Rattle.script_tokens.specs.Refusals.{IsTooDeepAt};
ghost use Rattle.script_tokens.specs.Shallow.{IsShallow};

use crate::token::{Symbol, Token};

/// The most brackets that may stand open at once.
pub const MOST_OPEN_BRACKETS: usize = 128;

/// The number of the first opening bracket at which more than [`MOST_OPEN_BRACKETS`] stand open; `None` where there
/// is none.
pub(crate) fn too_deep_at(tokens: &[Token]) -> Option<usize>
    ensures { MatchOption result (IsShallow 0 tokens.now) (λ number. IsTooDeepAt tokens.now number) }
{
    let mut open_brackets = 0;
    for (number, token) in tokens.iter().enumerate() {
        match open_after(open_brackets, token) {
            Some(brackets) => open_brackets = brackets,
            None => return Some(number),
        }
    }
    None
}

/// How many brackets stand open after the token, where so many stand open before it; `None` where it opens one too
/// many.
fn open_after(open_brackets: usize, token: &Token) -> Option<usize>
    ensures { MatchOption result
        ((ts : List Token) → IsShallow open_brackets (token.now ∷ ts) → ⊥)
        (λ brackets. (ts : List Token) → IsShallow open_brackets (token.now ∷ ts) ↔ IsShallow brackets ts) }
{
    match token {
        Token::Mark(Symbol::OpenParenthesis | Symbol::OpenBrace | Symbol::OpenBracket) => {
            if open_brackets < MOST_OPEN_BRACKETS {
                Some(open_brackets + 1)
            } else {
                None
            }
        }
        Token::Mark(Symbol::CloseParenthesis | Symbol::CloseBrace | Symbol::CloseBracket) => {
            Some(open_brackets.saturating_sub(1))
        }
        _ => Some(open_brackets),
    }
}

#[cfg(test)]
mod tests {
    use super::too_deep_at;
    use crate::token::{Symbol, Token};
    use std::test::Fail;

    #[test]
    fn brackets_that_stand_open(rt: HostRuntime) -> Result<(), Fail> {
        // closing brackets, opening ones, closing ones, opening ones, and the token that is too deep
        let rows = [
            (0, 128, 0, 0, None),
            (0, 129, 0, 0, Some(128)),
            (0, 130, 0, 0, Some(128)),
            (0, 128, 1, 1, None),
            (0, 128, 1, 2, Some(130)),
            (3, 128, 0, 0, None),
            (3, 129, 0, 0, Some(131)),
        ];
        for (before, first, between, last, want) in rows {
            let mut tokens = Vec::new(rt.alloc());
            let parts = [
                (before, Symbol::CloseBrace),
                (first, Symbol::OpenParenthesis),
                (between, Symbol::CloseBracket),
                (last, Symbol::OpenBrace),
            ];
            for (count, symbol) in parts {
                for _ in 0..count {
                    tokens.push(Token::Mark(symbol))?;
                }
            }
            assert_eq!(rt;
                too_deep_at(tokens.as_slice()),
                want,
                "{before} {first} {between} {last}"
            );
        }
        Ok(())
    }
}
