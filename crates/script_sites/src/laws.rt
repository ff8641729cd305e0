ghost use Rattle.std.specs.Prelude.{◌≡◌, ◌↔◌, ℕ, Some, slice_get};
ghost use Rattle.script_grammar.specs.declared.tree.Script.{Script};
ghost use Rattle.script_grammar.specs.declared.tree.Function.{Function};
ghost use Rattle.script_grammar.specs.declared.tree.Task.{Task};
ghost use Rattle.script_sites.specs.declared.limits.What.{What};
ghost use Rattle.script_sites.specs.Limits.{IsTooMany, IsWithinLimits};
ghost use Rattle.script_sites.specs.Sites.{function_sites, function_starts, site_binders, task_sites, task_starts, IsPartAt};

/// At most one limit is the first that a script passes, and none is exactly where it is within all. The function
/// computes nothing; its contract is the fact.
#[tactic(auto, using(crate::proofs::Turns::one_above))]
pub fn limits_are_judged_in_order()
    ensures one { (s : Script) (v w : What) → IsTooMany s v → IsTooMany s w → v ≡ w }
    ensures none { (s : Script) → (IsWithinLimits s ↔ ((w : What) → IsTooMany s w → ⊥)) }
{}

/// Among the sites of a script, those of each function and task stand from its start on. The function computes
/// nothing; its contract is the fact.
#[tactic(auto, using(crate::proofs::Starts::function_part, crate::proofs::Starts::task_part))]
pub fn bodies_have_their_sites()
    ensures functions { (s : Script) (k n : ℕ) (f : Function) → slice_get s.functions k ≡ Some f
        → slice_get (function_starts s) k ≡ Some n → IsPartAt (site_binders s) n (function_sites f) }
    ensures tasks { (s : Script) (k n : ℕ) (t : Task) → slice_get s.tasks k ≡ Some t
        → slice_get (task_starts s) k ≡ Some n → IsPartAt (site_binders s) n (task_sites t) }
{}
