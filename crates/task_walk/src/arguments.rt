ghost use Rattle.std.specs.Prelude.{◌≡◌, ◌-◌, length, take, drop, position, IfOk};
ghost use Rattle.std.specs.Str.{bytes_eq};
ghost use Rattle.task_code.specs.Acts.{at_name, placed};
ghost use Rattle.task_walk.specs.Parts.{argument_of};
ghost use Rattle.task_walk.specs.Tales.{Teller, AreProper, IsProperValue};

use dyn_value::{DynText, Value};
use sqlite_items::{Items, at};
use std::alloc::{AllocError, Global};

/// For each parameter the value of a call's argument: a positional one by its place, else the one of its name, else
/// nil. The named arguments stand last, in the order of these names.
pub fn place_values(
    alloc: Global,
    params: &[DynText],
    names: &[DynText],
    args: &[Value],
) -> Result<Items<Value>, AllocError>
    ensures values { IfOk result (λ vs. vs ≡ placed params.now names.now
        (take (length args.now - length names.now) args.now) (drop (length args.now - length names.now) args.now)) }
    ensures proper { (by : Teller) → AreProper by args.now → IfOk result (AreProper by) }
{
    let (by_place, named) = args.split_at(args.len().saturating_sub(names.len()));
    let mut values = Items::new(alloc);
    for (place, param) in params.iter().enumerate() {
        let value = argument_value(param, place, by_place, names, named)?;
        values.push(value)?;
    }
    Ok(values)
}

/// The value for the parameter of this place: the argument of that place, else the one of its name.
fn argument_value(
    param: &DynText,
    place: usize,
    by_place: &[Value],
    names: &[DynText],
    named: &[Value],
) -> Result<Value, AllocError>
    ensures value { IfOk result (λ v. v ≡ argument_of param.now place by_place.now names.now named.now) }
    ensures proper { (by : Teller) → AreProper by by_place.now → AreProper by named.now
        → IfOk result (IsProperValue by) }
{
    match at(by_place, place) {
        Some(value) => value.copy(),
        None => named_value(place_of(param, names), named),
    }
}

/// The place of a name among these.
fn place_of(param: &DynText, names: &[DynText]) -> Option<usize>
    ensures { result ≡ position (bytes_eq param.now) names.now }
{
    names.iter().position(|name| param.same(name))
}

/// The value of the named argument at this place; nil where there is none.
fn named_value(place: Option<usize>, named: &[Value]) -> Result<Value, AllocError>
    ensures value { IfOk result (λ v. v ≡ at_name place named.now) }
    ensures proper { (by : Teller) → AreProper by named.now → IfOk result (IsProperValue by) }
{
    let Some(place) = place else {
        return Ok(Value::Nil);
    };
    match named.get(place) {
        Some(value) => value.copy(),
        None => Ok(Value::Nil),
    }
}
