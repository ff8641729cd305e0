//! The metaobjects of the operands of an operation.
ghost use Rattle.std.specs.Prelude.{◌≡◌, ◌<◌, ◌≤◌, if◌then◌else◌, IfOk, length, None, Some, slice_get};
ghost use Rattle.std.specs.List.{list_all};
ghost use Rattle.std.specs.Option.{option_copied};
ghost use Rattle.dyn_value.specs.declared.value.Value.{Value};
ghost use Rattle.expando_class.specs.Class.{IsClassOf};
ghost use Rattle.expando_class.specs.Pass.{IsPassOf};
ghost use Rattle.rule_model.specs.Soundness.{looks_at_none};
ghost use Rattle.rule_model.specs.Tests.{known_value};
ghost use Rattle.meta_object.specs.Metas as metas;
ghost use Rattle.meta_object.specs.Metas.{CanBind, IsLendable, IsMetaOf};
ghost use Rattle.meta_object.specs.Operands.{AreMetasOf, lent_at};

use crate::operand::is_key;
use dyn_value::Value;
use expando_class::{ClassPass, ClassRef, ClassTable};
use meta_object::MetaObject;
use standard_binders::{Binder, FunTable};
use std::alloc::{AllocError, Global};
use std::test::Fail;

/// The most operands of an operation: its target, and as many arguments as a call may have.
const MOST_OPERANDS: usize = 17;

/// The metaobjects of the operands of an operation that may be bound. The class is that of the target, where the
/// operation is on an object.
pub(crate) fn metas_for(
    alloc: Global,
    functions: &FunTable,
    table: &ClassTable,
    pass: &ClassPass,
    binder: &Binder,
    operands: &[Value],
    class: &ClassRef,
) -> Result<Vec<MetaObject>, Fail>
    requires own { IsPassOf table.now pass.now }
    requires of { IsClassOf table.now class.now }
    ensures { IfOk result (λ metas. CanBind functions.now.params table.now pass.now binder.now metas.items) }
{
    let count = operands.len();
    if count != binder.operand_count() as usize || count > MOST_OPERANDS {
        return Err(Fail::new("other operands"));
    }
    if !has_key(binder) || !are_callable(functions, operands) {
        return Err(Fail::new("no operation"));
    }
    let lent = lent_for(binder, operands, class);
    let metas = metas_of(alloc, operands, lent)?;
    Ok(metas)
}

fn has_key(binder: &Binder) -> bool
    ensures { result ≡ metas.has_key binder.now }
{
    match binder {
        Binder::GetMember { name, .. }
        | Binder::SetMember { name, .. }
        | Binder::DeleteMember { name, .. }
        | Binder::InvokeMember { name, .. } => is_key(name),
        _ => true,
    }
}

fn are_callable(functions: &FunTable, operands: &[Value]) -> bool
    ensures { result ≡ list_all (λ v. metas.is_callable functions.now.params (known_value v)) operands.now }
{
    operands
        .iter()
        .all(|operand| is_callable(functions, operand))
}

/// Whether an operand, if it is a function, is one of these and has at most 16 parameters.
fn is_callable(functions: &FunTable, operand: &Value) -> bool
    ensures { result ≡ metas.is_callable functions.now.params (known_value operand.now) }
{
    match operand {
        Value::Fun(number) => match functions.params.get(*number as usize) {
            Some(parameters) => parameters.len() <= FunTable::MOST_PARAMETERS,
            None => false,
        },
        _ => true,
    }
}

/// The class that is lent for an operation: none where it looks at no object.
fn lent_for<'a>(binder: &Binder, operands: &[Value], class: &'a ClassRef) -> Option<&'a ClassRef>
    ensures { option_copied result ≡ (if looks_at_none binder.now operands.now then None else Some class.now) }
{
    match operands.first() {
        Some(Value::Obj(_)) if binder.is_on_members() => Some(class),
        _ => None,
    }
}

/// The metaobjects of operands; the class is lent to the target.
fn metas_of(
    alloc: Global,
    operands: &[Value],
    class: Option<&ClassRef>,
) -> Result<Vec<MetaObject>, AllocError>
    requires few { length operands.now ≤ MOST_OPERANDS }
    requires lendable { (v : Value) → slice_get operands.now 0 ≡ Some v → IsLendable (option_copied class) v }
    ensures { IfOk result (λ metas. AreMetasOf operands.now (option_copied class.entry) metas.items) }
{
    let mut metas = Vec::new(alloc);
    for (place, value) in operands.iter().enumerate() {
        let meta = meta_of(alloc, place, value, class)?;
        metas.push(meta)?;
    }
    Ok(metas)
}

/// The metaobject of the operand at a place; the class is lent to the target.
fn meta_of(
    alloc: Global,
    place: usize,
    value: &Value,
    class: Option<&ClassRef>,
) -> Result<MetaObject, AllocError>
    requires few { place < 256 }
    requires lendable { place ≡ 0 → IsLendable (option_copied class) value.now }
    ensures { IfOk result (IsMetaOf place value.now (lent_at place (option_copied class.entry))) }
{
    match place {
        0 => MetaObject::of(alloc, 0, value, class),
        _ => MetaObject::of(alloc, place as u8, value, None),
    }
}
