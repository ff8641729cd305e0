ghost use Rattle.std.specs.Prelude.{◌≡◌, ℕ, List, IfOk};
ghost use Rattle.dyn_value.specs.Conversions as spec;
ghost use Rattle.dyn_value.specs.Conversions.{convert_of, IsTextAsInt};
ghost use Rattle.dyn_value.specs.Proper.{IsProper};

use crate::fault::Fault;
use crate::label;
use crate::text::DynText;
use crate::value::{Kind, Value};
use std::alloc::{AllocError, Global};

/// What the value gives when it is converted to the kind.
///
/// - A value of that kind is answered as it is.
/// - To `Text`: the plain text of any value.
/// - To `Int`: 0 or 1 for a `Bool`, and for a `Text` the number within 64 bits whose plain text it is.
/// - To `Bool`: false for nil and for the number 0, and true for any other number.
/// - All else gives `NoConvert`.
///
/// The inner result is the answer; the outer one fails for want of memory alone.
pub fn convert(alloc: Global, value: &Value, to: Kind) -> Result<Result<Value, Fault>, AllocError>
    ensures answer { IfOk result (λ r. r ≡ convert_of value.now to) }
    ensures proper { IfOk result (λ r. IsProper value.now → IfOk r IsProper) }

    // The number of a text, in the words of the rule itself.
    ensures number { IfOk result (λ r. (cs : List ℕ) → value.now ≡ Value.Text cs → to ≡ Kind.Int → IsTextAsInt cs r) }
{
    match to {
        Kind::Text => {
            let text = value.to_text(alloc)?;
            Ok(Ok(Value::Text(text)))
        }
        Kind::Int => to_int(alloc, value),
        Kind::Bool => Ok(to_bool(value)),
        Kind::Nil | Kind::Fun | Kind::Obj => Ok(kept(value, to)),
    }
}

/// The value as a number.
fn to_int(alloc: Global, value: &Value) -> Result<Result<Value, Fault>, AllocError>
    ensures { IfOk result (λ r. r ≡ spec.to_int value.now) }
{
    match value {
        Value::Int(number) => Ok(Ok(Value::Int(*number))),
        Value::Bool(true) => Ok(Ok(Value::Int(1))),
        Value::Bool(false) => Ok(Ok(Value::Int(0))),
        Value::Text(text) => match number_of(alloc, text)? {
            Some(number) => Ok(Ok(Value::Int(number))),
            None => Ok(Err(Fault::NoConvert)),
        },
        _ => Ok(Err(Fault::NoConvert)),
    }
}

/// The number within 64 bits whose plain text this is.
fn number_of(alloc: Global, text: &DynText) -> Result<Option<i64>, AllocError>
    ensures { IfOk result (λ n. n ≡ spec.number_of text.now) }
{
    let Ok(number) = text.as_str().parse::<i64>() else {
        return Ok(None);
    };

    // `parse` also reads a plus sign, leading zeros and a minus before 0.
    let plain = label::number(alloc, number)?;
    let same = plain.as_str() == text.as_str();
    Ok(if same { Some(number) } else { None })
}

/// The value as a truth value.
fn to_bool(value: &Value) -> Result<Value, Fault>
    ensures { result ≡ spec.to_bool value.now }
{
    match value {
        Value::Nil => Ok(Value::Bool(false)),
        Value::Bool(truth) => Ok(Value::Bool(*truth)),
        Value::Int(number) => Ok(Value::Bool(*number != 0)),
        _ => Err(Fault::NoConvert),
    }
}

/// Nil, a function or an object, where it has that very kind.
fn kept(value: &Value, to: Kind) -> Result<Value, Fault>
    ensures { result ≡ spec.kept value.now to }
{
    match (value, to) {
        (Value::Nil, Kind::Nil) => Ok(Value::Nil),
        (Value::Fun(number), Kind::Fun) => Ok(Value::Fun(*number)),
        (Value::Obj(number), Kind::Obj) => Ok(Value::Obj(*number)),
        _ => Err(Fault::NoConvert),
    }
}
