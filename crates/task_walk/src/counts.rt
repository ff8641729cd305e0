ghost use Rattle.std.specs.Prelude.{◌≡◌, ◌+◌, suc, true, IfOk, IfErr, is_some, Some, None};
ghost use Rattle.dyn_value.specs.declared.fault.Fault.TheVariants.{Depth, Turns};
ghost use Rattle.object_model.specs.Steps.{on_object};
ghost use Rattle.task_walk.specs.Parts.{opened, turn_cost, is_truth};

use dyn_value::{Fault, Value};
use standard_binders::Binder;

/// The levels that are left inside one more, or `Depth` where none is left.
pub fn inner_levels(levels: u32) -> Result<u32, Fault>
    ensures inner { IfOk result (λ inner. levels ≡ suc inner) }
    ensures none { IfErr result (λ fault. (fault ≡ Depth) × (levels ≡ 0)) }
{
    match levels.checked_sub(1) {
        Some(inner) => Ok(inner),
        None => Err(Fault::Depth),
    }
}

/// The levels that are left for a part that may open one, or `Depth` where it would and none is left.
pub fn levels_of_part(opens: bool, levels: u32) -> Result<u32, Fault>
    ensures inner { IfOk result (λ inner. opened opens levels ≡ Some inner) }
    ensures none { IfErr result (λ fault. (fault ≡ Depth) × (opened opens levels ≡ None)) }
{
    if opens {
        inner_levels(levels)
    } else {
        Ok(levels)
    }
}

/// The turns that are left after one more, or `Turns` where none is left.
pub fn turns_after(turns: u32) -> Result<u32, Fault>
    ensures after { IfOk result (λ after. turns ≡ suc after) }
    ensures none { IfErr result (λ fault. (fault ≡ Turns) × (turns ≡ 0)) }
{
    match turns.checked_sub(1) {
        Some(after) => Ok(after),
        None => Err(Fault::Turns),
    }
}

/// Whether the operation of this binder is one on an object.
fn is_on_object(binder: &Binder, operands: &[Value]) -> bool
    ensures { result ≡ is_some (on_object binder.now operands.now) }
{
    match operands.first() {
        Some(Value::Obj(_)) => binder.is_on_members(),
        _ => false,
    }
}

/// The turns that are left after an operation is counted, or `Turns` where it would count one and none is left.
pub(crate) fn turns_for(binder: &Binder, operands: &[Value], turns: u32) -> Result<u32, Fault>
    ensures after { IfOk result (λ after. turns ≡ after + turn_cost (on_object binder.now operands.now)) }
    ensures none { IfErr result (λ fault. (fault ≡ Turns) × (turns ≡ 0)
        × (turn_cost (on_object binder.now operands.now) ≡ 1)) }
{
    if is_on_object(binder, operands) {
        turns_after(turns)
    } else {
        Ok(turns)
    }
}

/// Whether a value is the truth value true.
pub fn is_true(value: &Value) -> bool
    ensures { result ≡ is_truth value.now }
{
    matches!(value, Value::Bool(true))
}
