//! What adopted rules answer to operations that look at no object.
ghost use Rattle.std.specs.Prelude.{◌≡◌, ℕ, IfOk, true};
ghost use Rattle.object_model.specs.Plain.{plain_step};
ghost use Rattle.rule.specs.Rules.{binder_of, claim_of};
ghost use Rattle.rule_model.specs.Claims.{FunHolds};
ghost use Rattle.rule_model.specs.Soundness.{Suit, looks_at_none};
ghost use Rattle.standard_binders.specs.Functions.{Functions};
ghost use Rattle.known_rules.specs.Guarding.{Passes};

use dyn_value::{Outcome, Value};
use rule::Rule;
use std::alloc::{AllocError, Global};
use tree_eval::eval_plain;

/// The outcome of an operation on these operands that looks at no object, by a rule of its binder that passes on them
/// and claims nothing of functions that does not hold. The one error is want of memory.
pub(crate) fn plain_outcome(
    alloc: Global,
    rule: &Rule,
    operands: &[Value],
) -> Result<Outcome, AllocError>
    requires claim { (functions : Functions) × FunHolds (claim_of rule.now) functions }
    requires none { looks_at_none (binder_of rule.now) operands.now ≡ true }
    requires suit { Suit (binder_of rule.now) operands.now }
    requires passes { (class : ℕ) × Passes operands.now class rule.now }
    ensures { (functions : Functions) → FunHolds (claim_of rule.now) functions
        → IfOk result (λ o. o ≡ plain_step functions (binder_of rule.now) operands.now) }
{
    // It is sound.
    rule.claim();
    eval_plain(alloc, rule.body(), operands)
}
