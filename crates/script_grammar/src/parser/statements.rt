//! Statements that hold no block.

ghost use Rattle.std.specs.Prelude.{◌≡◌, ◌∷◌, ◌<◌, length, IfOk, IfErr};
ghost use Rattle.script_grammar.specs.Forms.{Reads};
ghost use Rattle.script_grammar.specs.Halts.{Halts};
ghost use Rattle.script_grammar.specs.StatementForms.{assignment, deletion, value_form, assigned_form, stmt_form, NoWord};

use crate::halt::Halt;
use crate::parser::expressions::expr_at;
use crate::parser::places::{Part, Place, part_at, place_of};
use crate::parser::tokens::{after, name_at, past};
use crate::tree::{Expr, Stmt};
use script_tokens::{Keyword, Symbol, Token};
use std::alloc::Global;

/// The expression at the front, which a semicolon ends.
fn value_at(alloc: Global, tokens: &[Token]) -> Result<(Expr, &[Token]), Halt<'_>>
    ensures read { IfOk result (λ f. Reads value_form tokens.now f.0 f.1.now) }
    ensures stop { IfErr result (λ h. Halts value_form tokens.now h) }
    ensures shorter { IfOk result (λ f. length f.1.now < length tokens.now) }
{
    let (value, rest) = expr_at(alloc, tokens)?;
    let rest = after(rest, Symbol::Semicolon)?;
    Ok((value, rest))
}

/// The expression after the equals sign at the front, which a semicolon ends.
fn assigned_at(alloc: Global, tokens: &[Token]) -> Result<(Expr, &[Token]), Halt<'_>>
    ensures read { IfOk result (λ f. Reads assigned_form tokens.now f.0 f.1.now) }
    ensures stop { IfErr result (λ h. Halts assigned_form tokens.now h) }
    ensures shorter { IfOk result (λ f. length f.1.now < length tokens.now) }
{
    let rest = after(tokens, Symbol::Equal)?;
    let (value, rest) = value_at(alloc, rest)?;
    Ok((value, rest))
}

/// The statement whose word `let` was taken.
pub fn let_at(alloc: Global, tokens: &[Token]) -> Result<(Stmt, &[Token]), Halt<'_>>
    ensures read { IfOk result (λ f. Reads stmt_form (Token.Word Keyword.Let ∷ tokens.now) f.0 f.1.now) }
    ensures stop { IfErr result (λ h. Halts stmt_form (Token.Word Keyword.Let ∷ tokens.now) h) }
    ensures shorter { IfOk result (λ f. length f.1.now < length tokens.now) }
{
    let (name, rest) = name_at(tokens)?;
    let (value, rest) = assigned_at(alloc, rest)?;
    Ok((Stmt::Let { name, value }, rest))
}

/// The statement that deletes this part.
fn deletion_of(part: Part) -> Stmt
    ensures { result ≡ deletion part }
{
    match part {
        Part::Member { target, name } => Stmt::DeleteMember { target, name },
        Part::Index { target, key } => Stmt::DeleteIndex { target, key },
    }
}

/// The statement whose word `delete` was taken.
pub fn delete_at(alloc: Global, tokens: &[Token]) -> Result<(Stmt, &[Token]), Halt<'_>>
    ensures read { IfOk result (λ f. Reads stmt_form (Token.Word Keyword.Delete ∷ tokens.now) f.0 f.1.now) }
    ensures stop { IfErr result (λ h. Halts stmt_form (Token.Word Keyword.Delete ∷ tokens.now) h) }
    ensures shorter { IfOk result (λ f. length f.1.now < length tokens.now) }
{
    let (part, rest) = part_at(alloc, tokens)?;
    let rest = after(rest, Symbol::Semicolon)?;
    Ok((deletion_of(part), rest))
}

/// The statement whose word `return` was taken.
pub fn return_at(alloc: Global, tokens: &[Token]) -> Result<(Stmt, &[Token]), Halt<'_>>
    ensures read { IfOk result (λ f. Reads stmt_form (Token.Word Keyword.Return ∷ tokens.now) f.0 f.1.now) }
    ensures stop { IfErr result (λ h. Halts stmt_form (Token.Word Keyword.Return ∷ tokens.now) h) }
    ensures shorter { IfOk result (λ f. length f.1.now < length tokens.now) }
{
    let (value, rest) = value_at(alloc, tokens)?;
    Ok((Stmt::Return(value), rest))
}

/// The statement whose word `print` was taken.
pub fn print_at(alloc: Global, tokens: &[Token]) -> Result<(Stmt, &[Token]), Halt<'_>>
    ensures read { IfOk result (λ f. Reads stmt_form (Token.Word Keyword.Print ∷ tokens.now) f.0 f.1.now) }
    ensures stop { IfErr result (λ h. Halts stmt_form (Token.Word Keyword.Print ∷ tokens.now) h) }
    ensures shorter { IfOk result (λ f. length f.1.now < length tokens.now) }
{
    let (value, rest) = value_at(alloc, tokens)?;
    Ok((Stmt::Print(value), rest))
}

/// The statement that gives this place a value.
fn assignment_of(place: Place, value: Expr) -> Stmt
    ensures { result ≡ assignment place value }
{
    match place {
        Place::Name(name) => Stmt::Assign { name, value },
        Place::Part(Part::Member { target, name }) => Stmt::SetMember {
            target,
            name,
            value,
        },
        Place::Part(Part::Index { target, key }) => Stmt::SetIndex { target, key, value },
    }
}

/// The statement at the front, which begins with an expression.
pub fn plain_at(alloc: Global, tokens: &[Token]) -> Result<(Stmt, &[Token]), Halt<'_>>
    requires { NoWord tokens.now }
    ensures read { IfOk result (λ f. Reads stmt_form tokens.now f.0 f.1.now) }
    ensures stop { IfErr result (λ h. Halts stmt_form tokens.now h) }
    ensures shorter { IfOk result (λ f. length f.1.now < length tokens.now) }
{
    let (expr, rest) = expr_at(alloc, tokens)?;
    let Some(next) = past(rest, Symbol::Equal) else {
        let rest = after(rest, Symbol::Semicolon)?;
        return Ok((Stmt::Plain(expr), rest));
    };
    let Some(place) = place_of(expr) else {
        return Err(Halt::Stop(rest));
    };
    let (value, rest) = value_at(alloc, next)?;
    Ok((assignment_of(place, value), rest))
}
