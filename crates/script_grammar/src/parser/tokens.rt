//! Single tokens at the front.

ghost use Rattle.std.specs.Prelude.{◌≡◌, ◌≢◌, true, ◌∷◌, ◌<◌, length, IfOk, IfErr, MatchOption};
ghost use Rattle.dyn_value.specs.declared.operator.BinOp.{BinOp};
ghost use Rattle.script_tokens.specs.declared.token.Symbol.{Symbol};
ghost use Rattle.script_grammar.specs.Forms.{Reads, tok};
ghost use Rattle.script_grammar.specs.ExpressionForms.{BeginsNot, NoUnary, NoSuffix, name_form, operator_form, start_symbol};
ghost use Rattle.script_grammar.specs.Halts.{Halts};
ghost use Rattle.script_grammar.specs.OperatorSymbols.{operator_symbol, unary_symbol};
ghost use Rattle.script_grammar.specs.Written.{is_written_unary};

use crate::halt::Halt;
use dyn_value::{BinOp, DynText, UnOp};
use script_tokens::{Keyword, Symbol, Token};

/// The tokens after this symbol, if they begin with it.
pub fn past(tokens: &[Token], symbol: Symbol) -> Option<&[Token]>
    ensures { MatchOption result (BeginsNot (Token.Mark symbol) tokens.now)
        (λ rest. tokens.now ≡ Token.Mark symbol ∷ rest.now) }
{
    match tokens {
        [Token::Mark(first), rest @ ..] if *first == symbol => Some(rest),
        _ => None,
    }
}

/// The tokens after this word, if they begin with it.
pub fn past_word(tokens: &[Token], word: Keyword) -> Option<&[Token]>
    ensures { MatchOption result (BeginsNot (Token.Word word) tokens.now)
        (λ rest. tokens.now ≡ Token.Word word ∷ rest.now) }
{
    match tokens {
        [Token::Word(first), rest @ ..] if *first == word => Some(rest),
        _ => None,
    }
}

/// The tokens after this symbol.
#[tactic(auto, using(crate::proofs::Fronts::no_symbol))]
pub fn after(tokens: &[Token], symbol: Symbol) -> Result<&[Token], Halt<'_>>
    ensures read { IfOk result (λ rest. Reads (tok (Token.Mark symbol)) tokens.now tt rest.now) }
    ensures stop { IfErr result (λ h. Halts (tok (Token.Mark symbol)) tokens.now h) }
    ensures shorter { IfOk result (λ rest. length rest.now < length tokens.now) }
{
    past(tokens, symbol).ok_or(Halt::Stop(tokens))
}

/// The tokens after this word.
#[tactic(auto, using(crate::proofs::Fronts::no_word))]
pub fn after_word(tokens: &[Token], word: Keyword) -> Result<&[Token], Halt<'_>>
    ensures read { IfOk result (λ rest. Reads (tok (Token.Word word)) tokens.now tt rest.now) }
    ensures stop { IfErr result (λ h. Halts (tok (Token.Word word)) tokens.now h) }
    ensures shorter { IfOk result (λ rest. length rest.now < length tokens.now) }
{
    past_word(tokens, word).ok_or(Halt::Stop(tokens))
}

/// A copy of the name at the front.
#[tactic(auto, using(crate::proofs::Fronts::no_name))]
pub fn name_at(tokens: &[Token]) -> Result<(DynText, &[Token]), Halt<'_>>
    ensures read { IfOk result (λ f. Reads name_form tokens.now f.0 f.1.now) }
    ensures stop { IfErr result (λ h. Halts name_form tokens.now h) }
    ensures shorter { IfOk result (λ f. length f.1.now < length tokens.now) }
{
    match tokens {
        [Token::Name(name), rest @ ..] => Ok((name.copy()?, rest)),
        _ => Err(Halt::Stop(tokens)),
    }
}

/// The operator between two operands that has this symbol.
fn operator_of(symbol: Symbol) -> Option<BinOp>
    ensures { MatchOption result ((op : BinOp) → symbol ≢ operator_symbol op)
        (λ op. symbol ≡ operator_symbol op) }
{
    match symbol {
        Symbol::Plus => Some(BinOp::Add),
        Symbol::Minus => Some(BinOp::Subtract),
        Symbol::Star => Some(BinOp::Multiply),
        Symbol::Slash => Some(BinOp::Divide),
        Symbol::Percent => Some(BinOp::Modulo),
        Symbol::EqualEqual => Some(BinOp::Equal),
        Symbol::BangEqual => Some(BinOp::NotEqual),
        Symbol::Less => Some(BinOp::LessThan),
        Symbol::LessEqual => Some(BinOp::LessThanOrEqual),
        Symbol::Greater => Some(BinOp::GreaterThan),
        Symbol::GreaterEqual => Some(BinOp::GreaterThanOrEqual),
        Symbol::Ampersand => Some(BinOp::And),
        Symbol::Bar => Some(BinOp::Or),
        _ => None,
    }
}

/// The operator at the front, which stands between two operands.
#[tactic(auto, using(crate::proofs::Fronts::no_operator))]
pub fn operator_at(tokens: &[Token]) -> Result<(BinOp, &[Token]), Halt<'_>>
    ensures read { IfOk result (λ f. Reads operator_form tokens.now f.0 f.1.now) }
    ensures stop { IfErr result (λ h. Halts operator_form tokens.now h) }
    ensures shorter { IfOk result (λ f. length f.1.now < length tokens.now) }
{
    if let [Token::Mark(symbol), rest @ ..] = tokens
        && let Some(op) = operator_of(*symbol)
    {
        return Ok((op, rest));
    }
    Err(Halt::Stop(tokens))
}

/// The operator before one operand, if the tokens begin with one, and the tokens after it.
pub fn unary_at(tokens: &[Token]) -> Option<(UnOp, &[Token])>
    ensures { MatchOption result (NoUnary tokens.now)
        (λ f. (is_written_unary f.0 ≡ true) × (tokens.now ≡ Token.Mark (unary_symbol f.0) ∷ f.1.now)) }
{
    match tokens {
        [Token::Mark(Symbol::Minus), rest @ ..] => Some((UnOp::Negate, rest)),
        [Token::Mark(Symbol::Bang), rest @ ..] => Some((UnOp::Not, rest)),
        _ => None,
    }
}

/// What a suffix begins with.
#[derive(Clone, Copy, Debug)]
pub enum SuffixStart {
    Dot,
    Bracket,
    Parenthesis,
}

/// The first symbol of a suffix, if the tokens begin with one, and the tokens after it.
pub fn suffix_start_at(tokens: &[Token]) -> Option<(SuffixStart, &[Token])>
    ensures { MatchOption result (NoSuffix tokens.now)
        (λ f. tokens.now ≡ Token.Mark (start_symbol f.0) ∷ f.1.now) }
{
    match tokens {
        [Token::Mark(Symbol::Dot), rest @ ..] => Some((SuffixStart::Dot, rest)),
        [Token::Mark(Symbol::OpenBracket), rest @ ..] => Some((SuffixStart::Bracket, rest)),
        [Token::Mark(Symbol::OpenParenthesis), rest @ ..] => Some((SuffixStart::Parenthesis, rest)),
        _ => None,
    }
}
