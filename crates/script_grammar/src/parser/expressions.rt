//! Expressions: a head and its suffixes.

ghost use Rattle.std.specs.Prelude.{◌≡◌, ◌≢◌, true, false, ℕ, List, ◌∷◌, ◌<◌, ◌≤◌, length, IfOk, IfErr, MatchOption};
ghost use Rattle.script_grammar.specs.Forms.{Reads};
ghost use Rattle.script_grammar.specs.ExpressionForms.{head_form, closed_form, suffix_form, suffixes_form, arg_form, args_form, more_args_form, some_args_form, expr_form, name_expr, start_symbol};
ghost use Rattle.script_grammar.specs.Halts.{Halts};
ghost use Rattle.script_grammar.specs.OperatorSymbols.{conversion_word};
ghost use Rattle.script_grammar.specs.Written.{is_conversion};

#[cfg(test)]
mod tests;

use crate::halt::Halt;
use crate::parser::tokens::{
    SuffixStart, after, name_at, operator_at, past, suffix_start_at, unary_at,
};
use crate::tree::{Arg, Expr, Head, Suffix};
use dyn_value::{DynText, Kind};
use script_tokens::{Keyword, Symbol, Token};
use sqlite_items::{Boxed, Items};
use std::alloc::Global;

/// The expression at the front, with all the suffixes that stand there.
#[cycle(expressions)]
pub fn expr_at(alloc: Global, tokens: &[Token]) -> Result<(Expr, &[Token]), Halt<'_>>
    ensures read { IfOk result (λ f. Reads expr_form tokens.now f.0 f.1.now) }
    ensures stop { IfErr result (λ h. Halts expr_form tokens.now h) }
    ensures shorter { IfOk result (λ f. length f.1.now < length tokens.now) }
{
    let (head, rest) = head_at(alloc, tokens)?;
    let (suffixes, rest) = suffixes_at(alloc, rest)?;
    Ok((Expr { head, suffixes }, rest))
}

/// The expression at the front, and the parenthesis that closes it.
#[cycle(expressions)]
fn closed_at(alloc: Global, tokens: &[Token]) -> Result<(Boxed<Expr>, &[Token]), Halt<'_>>
    ensures read { IfOk result (λ f. Reads closed_form tokens.now f.0 f.1.now) }
    ensures stop { IfErr result (λ h. Halts closed_form tokens.now h) }
    ensures shorter { IfOk result (λ f. length f.1.now < length tokens.now) }
{
    let (value, rest) = expr_at(alloc, tokens)?;
    let rest = after(rest, Symbol::CloseParenthesis)?;
    Ok((Boxed::new(alloc, value)?, rest))
}

/// The head at the front.
#[cycle(expressions)]
#[tactic(auto, using(crate::proofs::Steps::no_head))]
fn head_at(alloc: Global, tokens: &[Token]) -> Result<(Head, &[Token]), Halt<'_>>
    ensures read { IfOk result (λ f. Reads head_form tokens.now f.0 f.1.now) }
    ensures stop { IfErr result (λ h. Halts head_form tokens.now h) }
    ensures shorter { IfOk result (λ f. length f.1.now < length tokens.now) }
{
    match tokens {
        [Token::Int(number), rest @ ..] => Ok((Head::Int(*number), rest)),
        [Token::Text(text), rest @ ..] => Ok((Head::Text(text.copy()?), rest)),
        [Token::Name(name), rest @ ..] => Ok((Head::Name(name.copy()?), rest)),
        [Token::Word(Keyword::Nil), rest @ ..] => Ok((Head::Nil, rest)),
        [Token::Word(Keyword::True), rest @ ..] => Ok((Head::True, rest)),
        [Token::Word(Keyword::False), rest @ ..] => Ok((Head::False, rest)),
        [Token::Word(Keyword::New), rest @ ..] => new_at(alloc, rest),
        [Token::Word(Keyword::Int), rest @ ..] => convert_at(alloc, Kind::Int, rest),
        [Token::Word(Keyword::Text), rest @ ..] => convert_at(alloc, Kind::Text, rest),
        [Token::Word(Keyword::Bool), rest @ ..] => convert_at(alloc, Kind::Bool, rest),
        [Token::Mark(Symbol::OpenParenthesis), rest @ ..] => operation_at(alloc, rest),
        _ => Err(Halt::Stop(tokens)),
    }
}

/// The operation whose opening parenthesis was taken.
#[cycle(expressions)]
fn operation_at(alloc: Global, tokens: &[Token]) -> Result<(Head, &[Token]), Halt<'_>>
    ensures read { IfOk result (λ f. Reads head_form (Token.Mark Symbol.OpenParenthesis ∷ tokens.now) f.0 f.1.now) }
    ensures stop { IfErr result (λ h. Halts head_form (Token.Mark Symbol.OpenParenthesis ∷ tokens.now) h) }
    ensures shorter { IfOk result (λ f. length f.1.now < length tokens.now) }
{
    if let Some((op, rest)) = unary_at(tokens) {
        let (value, rest) = closed_at(alloc, rest)?;
        return Ok((Head::Unary { op, value }, rest));
    }
    let (left, rest) = expr_at(alloc, tokens)?;
    let (op, rest) = operator_at(rest)?;
    let (right, rest) = closed_at(alloc, rest)?;
    let left = Boxed::new(alloc, left)?;
    Ok((Head::Binary { op, left, right }, rest))
}

/// The conversion to this kind, whose word was taken.
#[cycle(expressions)]
fn convert_at(alloc: Global, to: Kind, tokens: &[Token]) -> Result<(Head, &[Token]), Halt<'_>>
    requires written { is_conversion to ≡ true }
    ensures read { IfOk result (λ f. Reads head_form (Token.Word (conversion_word to) ∷ tokens.now) f.0 f.1.now) }
    ensures stop { IfErr result (λ h. Halts head_form (Token.Word (conversion_word to) ∷ tokens.now) h) }
    ensures shorter { IfOk result (λ f. length f.1.now < length tokens.now) }
{
    let rest = after(tokens, Symbol::OpenParenthesis)?;
    let (value, rest) = closed_at(alloc, rest)?;
    Ok((Head::Convert { to, value }, rest))
}

/// The head whose word `new` was taken.
#[cycle(expressions)]
fn new_at(alloc: Global, tokens: &[Token]) -> Result<(Head, &[Token]), Halt<'_>>
    ensures read { IfOk result (λ f. Reads head_form (Token.Word Keyword.New ∷ tokens.now) f.0 f.1.now) }
    ensures stop { IfErr result (λ h. Halts head_form (Token.Word Keyword.New ∷ tokens.now) h) }
    ensures shorter { IfOk result (λ f. length f.1.now < length tokens.now) }
{
    let rest = after(tokens, Symbol::OpenParenthesis)?;
    if let Some(rest) = past(rest, Symbol::CloseParenthesis) {
        return Ok((Head::New, rest));
    }
    let (target, rest) = expr_at(alloc, rest)?;
    let (args, rest) = more_args_at(alloc, rest)?;
    let target = Boxed::new(alloc, target)?;
    Ok((Head::NewOf { target, args }, rest))
}

/// The suffixes at the front, as many as there are.
#[cycle(expressions)]
fn suffixes_at(alloc: Global, tokens: &[Token]) -> Result<(Items<Suffix>, &[Token]), Halt<'_>>
    ensures read { IfOk result (λ f. Reads (suffixes_form false) tokens.now f.0 f.1.now) }
    ensures stop { IfErr result (λ h. Halts (suffixes_form false) tokens.now h) }
    ensures shorter { IfOk result (λ f. length f.1.now ≤ length tokens.now) }
{
    let mut suffixes = Items::new(alloc);
    let mut rest = tokens;
    'row: while let Some((start, next)) = suffix_start_at(rest) {
        let (suffix, more) = suffix_at(alloc, start, next)?;
        suffixes.push(suffix)?;
        rest = more;
    }
    Ok((suffixes, rest))
}

/// The suffix whose first token was taken.
#[cycle(expressions)]
fn suffix_at(
    alloc: Global,
    start: SuffixStart,
    tokens: &[Token],
) -> Result<(Suffix, &[Token]), Halt<'_>>
    ensures read { IfOk result
        (λ f. Reads (suffix_form start) (Token.Mark (start_symbol start) ∷ tokens.now) f.0 f.1.now) }
    ensures stop { IfErr result (λ h. Halts (suffix_form start) (Token.Mark (start_symbol start) ∷ tokens.now) h) }
    ensures shorter { IfOk result (λ f. length f.1.now < length tokens.now) }
{
    match start {
        SuffixStart::Dot => member_at(alloc, tokens),
        SuffixStart::Bracket => {
            let (key, rest) = expr_at(alloc, tokens)?;
            let rest = after(rest, Symbol::CloseBracket)?;
            Ok((Suffix::Index(key), rest))
        }
        SuffixStart::Parenthesis => {
            let (args, rest) = args_at(alloc, tokens)?;
            Ok((Suffix::Call(args), rest))
        }
    }
}

/// The member, or the call of one, whose dot was taken.
#[cycle(expressions)]
fn member_at(alloc: Global, tokens: &[Token]) -> Result<(Suffix, &[Token]), Halt<'_>>
    ensures read { IfOk result
        (λ f. Reads (suffix_form SuffixStart.Dot) (Token.Mark Symbol.Dot ∷ tokens.now) f.0 f.1.now) }
    ensures stop { IfErr result (λ h. Halts (suffix_form SuffixStart.Dot) (Token.Mark Symbol.Dot ∷ tokens.now) h) }
    ensures shorter { IfOk result (λ f. length f.1.now < length tokens.now) }
{
    let (name, rest) = name_at(tokens)?;
    match past(rest, Symbol::OpenParenthesis) {
        None => Ok((Suffix::Member { name }, rest)),
        Some(rest) => {
            let (args, rest) = args_at(alloc, rest)?;
            Ok((Suffix::MemberCall { name, args }, rest))
        }
    }
}

/// The arguments at the front, if any, and the parenthesis that closes them.
#[cycle(expressions)]
fn args_at(alloc: Global, tokens: &[Token]) -> Result<(Items<Arg>, &[Token]), Halt<'_>>
    ensures read { IfOk result (λ f. Reads args_form tokens.now f.0 f.1.now) }
    ensures stop { IfErr result (λ h. Halts args_form tokens.now h) }
    ensures shorter { IfOk result (λ f. length f.1.now < length tokens.now) }
{
    if let Some(rest) = past(tokens, Symbol::CloseParenthesis) {
        return Ok((Items::new(alloc), rest));
    }
    some_args_at(alloc, tokens)
}

/// The further arguments at the front, if any, and the parenthesis that closes them.
#[cycle(expressions)]
fn more_args_at(alloc: Global, tokens: &[Token]) -> Result<(Items<Arg>, &[Token]), Halt<'_>>
    ensures read { IfOk result (λ f. Reads (more_args_form false) tokens.now f.0 f.1.now) }
    ensures stop { IfErr result (λ h. Halts (more_args_form false) tokens.now h) }
    ensures shorter { IfOk result (λ f. length f.1.now < length tokens.now) }
{
    if let Some(rest) = past(tokens, Symbol::CloseParenthesis) {
        return Ok((Items::new(alloc), rest));
    }
    let rest = after(tokens, Symbol::Comma)?;
    some_args_at(alloc, rest)
}

/// The argument at the front and all that follow it, and the parenthesis that closes them.
#[cycle(expressions)]
fn some_args_at(alloc: Global, tokens: &[Token]) -> Result<(Items<Arg>, &[Token]), Halt<'_>>
    ensures read { IfOk result (λ f. Reads (some_args_form false) tokens.now f.0 f.1.now) }
    ensures stop { IfErr result (λ h. Halts (some_args_form false) tokens.now h) }
    ensures shorter { IfOk result (λ f. length f.1.now < length tokens.now) }
{
    let mut args = Items::new(alloc);
    let mut named = false;
    let mut rest = tokens;
    'row: loop {
        let (arg, more) = arg_at(alloc, named, rest)?;
        named = arg.name.is_some();
        args.push(arg)?;
        if let Some(rest) = past(more, Symbol::CloseParenthesis) {
            return Ok((args, rest));
        }
        rest = after(more, Symbol::Comma)?;
    }
}

/// The argument at the front, which has a name where one before it has.
#[cycle(expressions)]
fn arg_at(alloc: Global, named: bool, tokens: &[Token]) -> Result<(Arg, &[Token]), Halt<'_>>
    ensures read { IfOk result (λ f. Reads (arg_form named) tokens.now f.0 f.1.now) }
    ensures stop { IfErr result (λ h. Halts (arg_form named) tokens.now h) }
    ensures shorter { IfOk result (λ f. length f.1.now < length tokens.now) }
{
    if named {
        return named_arg_at(alloc, tokens);
    }
    let (value, rest) = expr_at(alloc, tokens)?;
    let Some(next) = past(rest, Symbol::Colon) else {
        return Ok((Arg { name: None, value }, rest));
    };
    let Some(name) = bare_name(value) else {
        return Err(Halt::Stop(rest));
    };
    let (value, rest) = expr_at(alloc, next)?;
    let name = Some(name);
    Ok((Arg { name, value }, rest))
}

/// The named argument at the front.
#[cycle(expressions)]
fn named_arg_at(alloc: Global, tokens: &[Token]) -> Result<(Arg, &[Token]), Halt<'_>>
    ensures read { IfOk result (λ f. Reads (arg_form true) tokens.now f.0 f.1.now) }
    ensures stop { IfErr result (λ h. Halts (arg_form true) tokens.now h) }
    ensures shorter { IfOk result (λ f. length f.1.now < length tokens.now) }
{
    let (name, rest) = name_at(tokens)?;
    let rest = after(rest, Symbol::Colon)?;
    let (value, rest) = expr_at(alloc, rest)?;
    let name = Some(name);
    Ok((Arg { name, value }, rest))
}

/// The name that the expression is, if it is one alone.
fn bare_name(value: Expr) -> Option<DynText>
    ensures { MatchOption result ((n : List ℕ) → value ≢ name_expr n) (λ n. value ≡ name_expr n) }
{
    let Expr { head, suffixes } = value;
    if !suffixes.is_empty() {
        return None;
    }
    match head {
        Head::Name(name) => Some(name),
        _other => None,
    }
}
