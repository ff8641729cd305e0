ghost use Rattle.std.specs.Prelude.{◌≡◌, ℕ, true};
ghost use Rattle.script_grammar.specs.declared.tree.Script.{Script};
ghost use Rattle.script_grammar.specs.Forms.{Tokens};
ghost use Rattle.script_grammar.specs.Refusals.{IsSyntaxPlace};
ghost use Rattle.script_grammar.specs.Spelling.{spell};
ghost use Rattle.script_grammar.specs.WrittenStatements.{is_written};

/// Two script trees are written as two lists of tokens: where two trees that can be written have one spelling,
/// they are one tree. So what a script's tokens mean is never a choice. The function computes nothing; its
/// contract is the fact.
pub fn trees_have_distinct_spellings()
    ensures { (s t : Script) → is_written s ≡ true → is_written t ≡ true → spell s ≡ spell t → s ≡ t }
{}

/// Tokens have one place at most where they are refused. The function computes nothing; its contract is the fact.
pub fn tokens_have_one_syntax_place()
    ensures { (ts : Tokens) (i j : ℕ) → IsSyntaxPlace ts i → IsSyntaxPlace ts j → i ≡ j }
{}

/// The tokens of a script that can be written are refused nowhere. The function computes nothing; its contract
/// is the fact.
pub fn scripts_have_no_syntax_place()
    ensures { (s : Script) (i : ℕ) → is_written s ≡ true → IsSyntaxPlace (spell s) i → ⊥ }
{}
