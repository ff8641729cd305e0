ghost use Rattle.std.specs.Prelude.{◌≡◌, ℕ, List};
ghost use Rattle.script_grammar.specs.declared.tree.Script.{Script};
ghost use Rattle.script_program.specs.declared.reading.ScriptRefused.{ScriptRefused};
ghost use Rattle.script_program.specs.Refusals.{IsRefusedScript};
ghost use Rattle.script_program.specs.Scripts.{IsScript};

use script_grammar::{
    scripts_have_no_syntax_place, tokens_have_one_syntax_place, trees_have_distinct_spellings,
};
use script_sites::limits_are_judged_in_order;
use script_tokens::{
    bytes_have_one_list_of_tokens, bytes_have_one_refusal as lexer_refusal, tokens_are_not_refused,
};

/// Bytes are one script at most. The function computes nothing; its contract is the fact.
pub fn bytes_are_one_script()
    ensures { (bytes : List ℕ) (s t : Script) → IsScript bytes s → IsScript bytes t → s ≡ t }
{
    bytes_have_one_list_of_tokens();
    trees_have_distinct_spellings();
}

/// Bytes are refused in one way at most: the cause and its place are no choice. The function computes nothing; its
/// contract is the fact.
pub fn bytes_have_one_refusal()
    ensures { (bytes : List ℕ) (refused other : ScriptRefused) →
        IsRefusedScript bytes refused → IsRefusedScript bytes other → refused ≡ other }
{
    bytes_have_one_list_of_tokens();
    tokens_are_not_refused();
    lexer_refusal();
    trees_have_distinct_spellings();
    scripts_have_no_syntax_place();
    tokens_have_one_syntax_place();
    limits_are_judged_in_order();
}

/// Bytes that are a script are not refused. The function computes nothing; its contract is the fact.
pub fn scripts_are_not_refused()
    ensures { (bytes : List ℕ) (s : Script) (refused : ScriptRefused) →
        IsScript bytes s → IsRefusedScript bytes refused → ⊥ }
{
    bytes_have_one_list_of_tokens();
    tokens_are_not_refused();
    trees_have_distinct_spellings();
    scripts_have_no_syntax_place();
    limits_are_judged_in_order();
}
