ghost use Rattle.std.specs.Prelude.{◌≡◌, ℕ, List};
ghost use Rattle.script_tokens.specs.declared.lexer.LexRefused.{LexRefused};
ghost use Rattle.script_tokens.specs.declared.token.Token.{Token};
ghost use Rattle.script_tokens.specs.Lexemes.{AreTokensAt};
ghost use Rattle.script_tokens.specs.Refusals.{AreTokensOf, IsRefused};

/// Bytes have one list of tokens at most, and each token one place. The function computes nothing; its contract is
/// the fact.
#[tactic(auto, using(crate::proofs::RefusalLaws::one_list))]
pub fn bytes_have_one_list_of_tokens()
    ensures { (bytes : List ℕ) (ts us : List Token) (places begin : List ℕ) →
        AreTokensOf bytes ts places → AreTokensOf bytes us begin → (ts ≡ us) × (places ≡ begin) }
{}

/// A text has one list of tokens at most, and each token one place, however deep brackets stand. The function computes
/// nothing; its contract is the fact.
#[tactic(auto, using(crate::proofs::RefusalLaws::one_list_at))]
pub fn characters_have_one_list_of_tokens()
    ensures { (cs : List ℕ) (ts us : List Token) (places begin : List ℕ) →
        AreTokensAt cs ts places → AreTokensAt cs us begin → (ts ≡ us) × (places ≡ begin) }
{}

/// Bytes that have tokens are not refused. The function computes nothing; its contract is the fact.
#[tactic(auto, using(crate::proofs::RefusalLaws::not_refused))]
pub fn tokens_are_not_refused()
    ensures { (bytes : List ℕ) (ts : List Token) (places : List ℕ) (refused : LexRefused) →
        AreTokensOf bytes ts places → IsRefused bytes refused → ⊥ }
{}

/// Bytes are refused in one way at most: the cause and its place are no choice. The function computes nothing; its
/// contract is the fact.
#[tactic(auto, using(crate::proofs::RefusalLaws::one_refusal))]
pub fn bytes_have_one_refusal()
    ensures { (bytes : List ℕ) (refused other : LexRefused) →
        IsRefused bytes refused → IsRefused bytes other → refused ≡ other }
{}
