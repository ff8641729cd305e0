ghost use Rattle.std.specs.Prelude.{◌≡◌, length};
ghost use Rattle.script_grammar.specs.declared.tree.Script.{Script};
ghost use Rattle.script_grammar.specs.Spelling.{spell};
ghost use Rattle.script_names.specs.Scripts.{judged};

/// Each token of a script is judged, and nothing else. The function computes nothing; its contract is the fact.
#[tactic(auto, using(crate::proofs::ScriptAgreement::judged_count))]
pub fn each_token_is_judged()
    ensures { (s : Script) → length (judged s) ≡ length (spell s) }
{}
