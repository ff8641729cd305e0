ghost use Rattle.std.specs.Prelude.{◌≡◌, ◌≤◌, ◌^◌, MatchOption};
ghost use Rattle.std.specs.Char.{is_ascii_digit};
ghost use Rattle.std.specs.List.{prefix_len};
ghost use Rattle.std.specs.Str.Parse.{digits_value};
ghost use Rattle.script_tokens.specs.declared.token.Token.TheVariants as token;
ghost use Rattle.script_tokens.specs.Lexemes.{IsDigits, Means, BeginsNoToken};
ghost use Rattle.script_tokens.specs.TextFronts.{IsFront, BeginsDigits, MeansNothing};

use super::front::Front;
use crate::token::Token;

/// The integer at the front of a text; `None` where the run of digits is too great or has a leading zero.
pub fn integer_front(text: &[char]) -> Option<Front>
    requires { BeginsDigits text.now }
    ensures { MatchOption result (BeginsNoToken text.now) (λ f. IsFront text.now f) }
{
    let length = digits_length(text);
    let value = integer_of(&text[..length])?;
    Some(Front {
        length,
        token: Some(Token::Int(value)),
    })
}

/// How many digits stand at the front.
fn digits_length(text: &[char]) -> usize
    ensures { result ≡ prefix_len is_ascii_digit text.now }
{
    text.iter().take_while(|c| c.is_ascii_digit()).count()
}

/// The integer that the digits mean; `None` where they have a leading zero or it is too great.
fn integer_of(digits: &[char]) -> Option<i64>
    requires { IsDigits digits.now }
    ensures { MatchOption result (MeansNothing digits.now) (λ z. Means digits.now (token.Int z)) }
{
    if digits.len() > 1 && digits[0] == '0' {
        return None;
    }
    let value = value_of(digits)?;
    i64::try_from(value).ok()
}

/// The number that the digits write; `None` where it is not below 2 ^ 64.
fn value_of(digits: &[char]) -> Option<u64>
    requires { IsDigits digits.now }
    ensures { MatchOption result (2 ^ 64 ≤ digits_value 10 digits.now) (λ n. n ≡ digits_value 10 digits.now) }
{
    let mut value: u64 = 0;
    for digit in digits {
        let ones = u64::from(*digit) - u64::from('0');
        value = value.checked_mul(10)?.checked_add(ones)?;
    }
    Some(value)
}
