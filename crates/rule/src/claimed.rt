//! Whether what a rule claims holds.
ghost use Rattle.std.specs.Prelude.{◌≡◌, ◌↔◌, IsTrue};
ghost use Rattle.std.specs.List.{list_all, zip};
ghost use Rattle.std.specs.Str.{bytes_eq};
ghost use Rattle.rule_model.specs.Claims.{FunHolds};
ghost use Rattle.rule.specs.Claimed.{IsAnswered, IsAnsweredOf};
ghost use Rattle.rule.specs.Rules.{claim_of};

use crate::class_lists::{is_after, is_as_claimed};
use crate::rule::Rule;
use dyn_value::DynText;
use expando_class::{ClassRef, ClassTable};
use rule_model::{Claim, ClassClaim};
use standard_binders::FunTable;

/// The classes that a claim which holds names.
#[derive(Drop)]
pub struct Adopted {
    /// The class of which it says something.
    pub class: Option<ClassRef>,
    /// The class to which the rule moves its object.
    pub after: Option<ClassRef>,
}

/// What a check of a claim comes to.
#[derive(Drop)]
pub enum Claimed {
    /// The claim holds, of these classes.
    Holds(Adopted),
    /// A function or the classes that the table shows contradict it.
    Fails,
    /// The table does not show a class now that the claim names.
    Unseen,
}

/// Whether what a rule claims holds, of these functions and of the classes that the table shows now. It takes no memory.
///
/// - `Holds` where it does; it hands out the classes that the claim names.
/// - `Fails` exactly where the function that the claim names has other parameters or is not there, or a class that the
///   table shows is not as claimed.
/// - `Unseen` only where the claim names a class other than the root that the table did not show in this call, and
///   nothing contradicts the claim. So it never comes where the claim names no class.
pub fn claim_holds(rule: &Rule, table: &ClassTable, funs: &FunTable) -> Claimed
    ensures { IsAnswered funs.now.params table.now (claim_of rule.now) result }
{
    let claim = rule.claim();
    if !fun_holds(claim, funs) {
        return Claimed::Fails;
    }
    match &claim.class {
        Some(claimed) => class_holds(claimed, table),
        None => Claimed::Holds(Adopted {
            class: None,
            after: None,
        }),
    }
}

/// Whether the function that the claim names, if any, is there and has these parameters.
fn fun_holds(claim: &Claim, funs: &FunTable) -> bool
    ensures { IsTrue result ↔ FunHolds claim.now funs.now.params }
{
    let Some(claimed) = &claim.fun else {
        return true;
    };
    match funs.params.get(claimed.number as usize) {
        Some(parameters) => are_same(parameters.as_slice(), claimed.params.as_slice()),
        None => false,
    }
}

/// Whether the texts are as many, and the same one by one.
fn are_same(left: &[DynText], right: &[DynText]) -> bool
    ensures { IsTrue result ↔ (left.now ≡ right.now) }
{
    left.len() == right.len() && all_same(left, right)
}

/// Whether the texts are the same one by one, as far as both lists go.
fn all_same(left: &[DynText], right: &[DynText]) -> bool
    ensures { result ≡ list_all (λ pair. bytes_eq pair.0 pair.1) (zip left.now right.now) }
{
    left.iter()
        .zip(right)
        .all(|(mine, theirs)| mine.same(theirs))
}

/// Whether what is claimed of a class holds, by what the table shows of it and of the class after.
fn class_holds(claimed: &ClassClaim, table: &ClassTable) -> Claimed
    ensures { IsAnsweredOf table.now claimed.now result }
{
    let Some(class) = table.look(claimed.class) else {
        return Claimed::Unseen;
    };
    if !is_as_claimed(claimed, table, &class) {
        return Claimed::Fails;
    }
    let Some(number) = claimed.after else {
        return Claimed::Holds(Adopted {
            class: Some(class),
            after: None,
        });
    };
    let Some(after) = table.look(number) else {
        return Claimed::Unseen;
    };
    if !is_after(claimed, table, &class, &after) {
        return Claimed::Fails;
    }
    Claimed::Holds(Adopted {
        class: Some(class),
        after: Some(after),
    })
}
