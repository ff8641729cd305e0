//! What can be assigned to, and what can be deleted.

ghost use Rattle.std.specs.Prelude.{◌≡◌, ◌≢◌, ◌<◌, length, IfOk, IfErr, MatchOption};
ghost use Rattle.script_grammar.specs.Forms.{Reads};
ghost use Rattle.script_grammar.specs.Halts.{Halts};
ghost use Rattle.script_grammar.specs.StatementForms.{with_last, part_expr, place_expr, part_form};
ghost use Rattle.script_grammar.specs.declared.parser.places.Part.{Part};
ghost use Rattle.script_grammar.specs.declared.parser.places.Place.{Place};

use crate::halt::Halt;
use crate::parser::expressions::expr_at;
use crate::tree::{Expr, Head, Suffix};
use dyn_value::DynText;
use script_tokens::Token;
use std::alloc::Global;

/// A part of what an expression gives.
#[derive(Drop)]
pub enum Part {
    /// `EXPRESSION . NAME`
    Member { target: Expr, name: DynText },
    /// `EXPRESSION [ EXPRESSION ]`
    Index { target: Expr, key: Expr },
}

/// What can be assigned to.
#[derive(Drop)]
pub enum Place {
    Name(DynText),
    Part(Part),
}

/// The expression with this suffix after it, as a part.
fn part_ending_in(target: Expr, last: Suffix) -> Option<Part>
    ensures { MatchOption result ((p : Part) → with_last target last ≢ part_expr p)
        (λ p. with_last target last ≡ part_expr p) }
{
    match last {
        Suffix::Member { name } => Some(Part::Member { target, name }),
        Suffix::Index(key) => Some(Part::Index { target, key }),
        _other => None,
    }
}

/// The expression as a part.
fn part_of(expr: Expr) -> Option<Part>
    ensures { MatchOption result ((p : Part) → expr ≢ part_expr p) (λ p. expr ≡ part_expr p) }
{
    let Expr { head, mut suffixes } = expr;
    let last = suffixes.pop()?;
    part_ending_in(Expr { head, suffixes }, last)
}

/// The expression as what can be assigned to.
pub fn place_of(expr: Expr) -> Option<Place>
    ensures { MatchOption result ((p : Place) → expr ≢ place_expr p) (λ p. expr ≡ place_expr p) }
{
    let Expr { head, mut suffixes } = expr;
    match suffixes.pop() {
        Some(last) => {
            let part = part_ending_in(Expr { head, suffixes }, last)?;
            Some(Place::Part(part))
        }
        None => match head {
            Head::Name(name) => Some(Place::Name(name)),
            _other => None,
        },
    }
}

/// The expression at the front, which ends in a member or an index.
pub fn part_at(alloc: Global, tokens: &[Token]) -> Result<(Part, &[Token]), Halt<'_>>
    ensures read { IfOk result (λ f. Reads part_form tokens.now f.0 f.1.now) }
    ensures stop { IfErr result (λ h. Halts part_form tokens.now h) }
    ensures shorter { IfOk result (λ f. length f.1.now < length tokens.now) }
{
    let (expr, rest) = expr_at(alloc, tokens)?;
    match part_of(expr) {
        Some(part) => Ok((part, rest)),
        None => Err(Halt::Stop(rest)),
    }
}
