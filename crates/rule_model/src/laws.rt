ghost use Rattle.std.specs.Prelude.{ℕ, Bool, List};
ghost use Rattle.dyn_value.specs.declared.value.Value.{Value};
ghost use Rattle.expr_tree.specs.declared.node.Node.{Node};
ghost use Rattle.standard_binders.specs.declared.binder.Binder.{Binder};
ghost use Rattle.rule_model.specs.declared.claim.Claim.{Claim};
ghost use Rattle.rule_model.specs.ClassMaps.{IsSoundIn};
ghost use Rattle.rule_model.specs.Soundness.{IsSound};

/// A sound rule does what its operation does under every map of classes under which its claim holds, although
/// soundness is stated of the names of one class and of the class after it. The function computes nothing; its
/// contract is the fact.
#[tactic(auto, using(crate::proofs::UnderMaps::sound_in_maps))]
pub fn sound_rules_hold_under_all_class_maps()
    ensures { (b : Binder) (test : List Value → ℕ → Bool) (body : List Node) (claim : Claim) →
        IsSound b test body claim → IsSoundIn b test body claim }
{}
