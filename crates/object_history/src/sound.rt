//! What an object asks of the rules that serve for the operations on it.
use expr_tree::Body;
use standard_binders::Binder;

/// A rule whose body, where it fits, does to an object what its binder's operation does to the members.
pub trait Sound {
    ghost use Rattle.std.specs.Prelude.{◌≡◌, ℕ, ◌∷◌, List, Some};
    ghost use Rattle.dyn_value.specs.declared.value.Value.{Value};
    ghost use Rattle.dyn_value.specs.declared.value.Value.TheVariants as value;
    ghost use Rattle.expr_tree.specs.declared.node.Node.{Node};
    ghost use Rattle.expr_tree.specs.Meanings.{State};
    ghost use Rattle.standard_binders.specs.declared.binder.Binder.{Binder};
    ghost use Rattle.object_model.specs.Members.{AreMembers, Members};
    ghost use Rattle.object_model.specs.Steps.{Step, object_step};
    ghost use Rattle.rule_model.specs.Soundness.{Does};
    ghost use Rattle.rule_model.specs.States.{HasMembers};

    // The binder whose operations it answers.
    ghost binder_of: { Self → Binder };

    // What it answers.
    ghost body_of: { Self → List Node };

    // It fits operands, the target first, a state, and the names of the class after.
    ghost fits: { Self → List Value → State → List (List ℕ) → Type 0 };

    /// Its binder.
    fn binder(&self) -> &Binder
        ensures { result.now ≡ binder_of self.now };

    /// Its body.
    fn body(&self) -> &Body
        ensures { result.now ≡ body_of self.now };

    // Where it fits an operation on an object, its body does the operation's step.
    ghost sound: { (r : Self) (s : State) (ms : Members) (more : List (List ℕ))
        → (object : ℕ) (arguments : List Value) (step : Step)
        → HasMembers s ms → AreMembers ms → object_step ms (binder_of r) arguments ≡ Some step
        → fits r (value.Obj object ∷ arguments) s more
        → ∥ Does (body_of r) (value.Obj object ∷ arguments) more s step ∥₁ };
}
