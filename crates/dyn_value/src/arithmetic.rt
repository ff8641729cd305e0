// Whole numbers of 64 bits: the exact result is a value where it fits, and `Overflow` where it does not.
ghost use Rattle.std.specs.Prelude.{◌≡◌, ℤ, FitsSigned, neg_ℤ, ◌+ℤ◌, ◌-ℤ◌, ◌*ℤ◌};
ghost use Rattle.std.specs.Int.{w64};
ghost use Rattle.std.specs.Option.{SomeIff};
ghost use Rattle.dyn_value.specs.Operations.{whole, quotient_of, remainder_of};

use crate::fault::Fault;
use crate::value::Value;

/// The value of a checked operation, whatever exact result `z` it was checked against.
fn checked(number: Option<i64>) -> Result<Value, Fault>
    ensures { (z : ℤ) → SomeIff number (FitsSigned w64 z) z → result ≡ whole z }
{
    match number {
        Some(number) => Ok(Value::Int(number)),
        None => Err(Fault::Overflow),
    }
}

/// The negated number; `Overflow` for the least one.
pub(crate) fn negated(number: i64) -> Result<Value, Fault>
    ensures { result ≡ whole (neg_ℤ number) }
{
    checked(number.checked_neg())
}

/// The sum, or `Overflow`.
pub(crate) fn sum(left: i64, right: i64) -> Result<Value, Fault>
    ensures { result ≡ whole (left +ℤ right) }
{
    checked(left.checked_add(right))
}

/// The difference, or `Overflow`.
pub(crate) fn difference(left: i64, right: i64) -> Result<Value, Fault>
    ensures { result ≡ whole (left -ℤ right) }
{
    checked(left.checked_sub(right))
}

/// The product, or `Overflow`.
pub(crate) fn product(left: i64, right: i64) -> Result<Value, Fault>
    ensures { result ≡ whole (left *ℤ right) }
{
    checked(left.checked_mul(right))
}

/// The quotient, truncated towards zero; `ZeroDivide` for the divisor 0, and `Overflow` for the least
/// number by -1.
pub(crate) fn quotient(dividend: i64, divisor: i64) -> Result<Value, Fault>
    ensures { result ≡ quotient_of dividend divisor }
{
    if divisor == 0 {
        return Err(Fault::ZeroDivide);
    }
    checked(dividend.checked_div(divisor))
}

/// The remainder, with the dividend's sign; `ZeroDivide` for the divisor 0. It never overflows.
pub(crate) fn remainder(dividend: i64, divisor: i64) -> Result<Value, Fault>
    ensures { result ≡ remainder_of dividend divisor }
{
    if divisor == 0 {
        return Err(Fault::ZeroDivide);
    }
    Ok(Value::Int(dividend.wrapping_rem(divisor)))
}
