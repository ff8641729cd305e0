ghost use Rattle.std.specs.Prelude.{◌≡◌, ℕ, ◌≤◌, length, get_or, IfOk, OnOk};
ghost use Rattle.dyn_value.specs.declared.value.Value.{Value};
ghost use Rattle.task_code.specs.Codes.{put};
ghost use Rattle.task_walk.specs.Tales.{Teller, AreProper, IsProperValue};

use dyn_value::Value;
use sqlite_items::Items;
use std::alloc::AllocError;

/// The value of the local of this number; nil where none was set.
pub fn local_value(locals: &[Value], number: u32) -> Result<Value, AllocError>
    ensures value { IfOk result (λ v. v ≡ get_or locals.now number Value.Nil) }
    ensures proper { (by : Teller) → AreProper by locals.now → IfOk result (IsProperValue by) }
{
    match locals.get(number as usize) {
        Some(value) => value.copy(),
        None => Ok(Value::Nil),
    }
}

/// Sets locals to nil until there are so many.
fn pad(locals: &mut Items<Value>, count: usize) -> Result<(), AllocError>
    ensures count { OnOk result (count ≤ length locals.new) }
    ensures same { (v : Value) → put count v locals.new ≡ put count v locals.old }
    ensures proper { (by : Teller) → AreProper by locals.old → AreProper by locals.new }
{
    'padding: while locals.len() < count {
        locals.push(Value::Nil)?;
    }
    Ok(())
}

/// Gives the local of this number this value. Where memory is refused, further locals may be nil.
pub fn put_local(locals: &mut Items<Value>, number: u32, value: Value) -> Result<(), AllocError>
    ensures put { OnOk result (locals.new ≡ put number value locals.old) }
    ensures proper { (by : Teller) → AreProper by locals.old → IsProperValue by value → AreProper by locals.new }
{
    let place = number as usize;
    pad(locals, place)?;
    if place < locals.len() {
        locals.set(place, value);
        Ok(())
    } else {
        locals.push(value)
    }
}
