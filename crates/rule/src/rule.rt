//! Rules.
ghost use Rattle.std.specs.Prelude.{◌≡◌, ℕ, IfOk, List};
ghost use Rattle.dyn_value.specs.declared.value.Value.{Value};
ghost use Rattle.expr_tree.specs.Meanings.{passes};
ghost use Rattle.restrictions.specs.Meanings.{all_hold};
ghost use Rattle.rule_model.specs.Soundness.{IsSound};

use expr_tree::{Body, Tree};
use meta_object::Bound;
use rule_model::Claim;
use standard_binders::Binder;
use std::alloc::{AllocError, Global};

/// A rule: where its test is true of the operands and the class of an operation of its binder, its body answers the
/// operation, as long as its claim holds. That it then answers what binding afresh gives is a part of its type.
///
/// It holds numbers, texts and lists alone, so threads may share it. [`bind`](crate::bind) alone makes one.
#[derive(Debug, Drop)]
pub struct Rule {
    binder: Binder,
    test: Tree,
    body: Body,
    claim: Claim,
    ghost sound: { ∥ IsSound binder (passes test) body claim ∥₁ },
}

impl Rule {
    ghost use Rattle.rule.specs.Rules.{IsSoundRule, binder_of, body_of, claim_of, test_of};

    /// The rule of a sound bound for the operations of a binder. The one error is want of memory.
    pub(crate) fn of(alloc: Global, binder: Binder, bound: Bound) -> Result<Rule, AllocError>
        requires { IsSound binder (all_hold bound.restrictions) bound.body bound.claim }
        ensures binder { IfOk result (λ r. binder_of r ≡ binder) }
        ensures test { IfOk result (λ r. (operands : List Value) (class : ℕ) →
            passes (test_of r) operands class ≡ all_hold bound.restrictions operands class) }
        ensures body { IfOk result (λ r. body_of r ≡ bound.body) }
        ensures claim { IfOk result (λ r. claim_of r ≡ bound.claim) }
    {
        let test = bound.restrictions.to_tree(alloc)?;
        Ok(Rule {
            binder,
            test,
            body: bound.body,
            claim: bound.claim,
        })
    }

    /// The binder whose operations it answers.
    pub fn binder(&self) -> &Binder
        ensures { result.now ≡ binder_of self.now }
    {
        &self.binder
    }

    /// The test that is true where it serves.
    pub fn test(&self) -> &Tree
        ensures { result.now ≡ test_of self.now }
    {
        &self.test
    }

    /// What it answers.
    pub fn body(&self) -> &Body
        ensures { result.now ≡ body_of self.now }
    {
        &self.body
    }

    /// What it rests on beside its test. The rule is sound.
    pub fn claim(&self) -> &Claim
        ensures claim { result.now ≡ claim_of self.now }
        ensures sound { IsSoundRule self.now }
    {
        &self.claim
    }
}
