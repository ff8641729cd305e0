ghost use Rattle.std.specs.Prelude.{◌≡◌, ◌≢◌, ◌↔◌, ◌^◌, ◌<◌, ℕ, length, map, slice_index, string_bytes, IsTrue, MatchOption};
ghost use Rattle.std.specs.Char.{is_ascii_digit};
ghost use Rattle.std.specs.Fmt.{decimal};
ghost use Rattle.std.specs.List.{list_all};
ghost use Rattle.script_places.specs.declared.refusal.Refusal.{Refusal};
ghost use Rattle.script_places.specs.RefusalWords.{cause_text, number_of, words_of};

/// A refusal that names a place. Bytes are counted from 0, and so are tokens.
#[derive(Clone, Copy, Debug, PartialEq, Eq)]
pub enum Refusal {
    /// At this byte begins the first sequence that is no UTF-8.
    NotText(u32),
    /// At this byte begins what is no token.
    BadToken(u32),
    /// The token of this number opens one bracket too many.
    TooDeep(u32),
    /// No script goes on with the token of this number; or this is the number of all tokens, and some are missing.
    Syntax(u32),
    /// The token of this number is a name that breaks a rule.
    BadName(u32),
}

/// The refusal that these words write, as `BadToken` and `15` do; `None` where they write none.
pub fn read_refusal(words: &[String]) -> Option<Refusal>
    ensures { MatchOption result
        ((refusal : Refusal) → number_of refusal < 2 ^ 32 → map string_bytes words.now ≢ words_of refusal)
        (λ refusal. (map string_bytes words.now ≡ words_of refusal) × (number_of refusal < 2 ^ 32)) }
{
    match words {
        [cause, number] => refusal_with(cause.as_str(), number_in(number.as_str())?),
        _ => None,
    }
}

/// The refusal of this cause with this number.
fn refusal_with(cause: &str, number: u32) -> Option<Refusal>
    ensures { MatchOption result
        ((refusal : Refusal) → cause.now ≢ cause_text refusal)
        (λ refusal. (cause.now ≡ cause_text refusal) × (number_of refusal ≡ number)) }
{
    match cause {
        "NotText" => Some(Refusal::NotText(number)),
        "BadToken" => Some(Refusal::BadToken(number)),
        "TooDeep" => Some(Refusal::TooDeep(number)),
        "Syntax" => Some(Refusal::Syntax(number)),
        "BadName" => Some(Refusal::BadName(number)),
        _ => None,
    }
}

/// The number that is written so in decimal, with no sign and no leading zero.
fn number_in(text: &str) -> Option<u32>
    ensures { MatchOption result
        ((number : ℕ) → number < 2 ^ 32 → text.now ≢ decimal number)
        (λ number. text.now ≡ decimal number) }
{
    let bytes = text.as_bytes();
    if !are_digits(bytes) {
        return None;
    }
    if begins_with_zero(bytes) {
        return None;
    }
    text.parse().ok()
}

fn are_digits(bytes: &[u8]) -> bool
    ensures { result ≡ list_all is_ascii_digit bytes.now }
{
    bytes.iter().all(|byte| byte.is_ascii_digit())
}

/// Whether a zero stands before another digit.
fn begins_with_zero(bytes: &[u8]) -> bool
    ensures { IsTrue result ↔ ((1 < length bytes.now) × (slice_index bytes.now 0 ≡ 48)) }
{
    bytes.len() > 1 && bytes[0] == b'0'
}
