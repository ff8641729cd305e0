//! How an operation is bound.
ghost use Rattle.std.specs.Prelude.{◌≡◌, ◌+◌, ◌<◌, ◌^◌, ◌≤◌, IfOk, OnErr, OnOk, Some, length, slice_get};
ghost use Rattle.std.specs.Option.{option_copied};
ghost use Rattle.dyn_value.specs.declared.value.Value.{Value as Operand};
ghost use Rattle.expando_class.specs.Pass.{IsPassOf};
ghost use Rattle.meta_object.specs.Metas.{IsLendable};
ghost use Rattle.meta_object.specs.Operands.{AreMetasOf, lent_at};
ghost use Rattle.standard_binders.specs.Binders.{operand_count_of};
ghost use Rattle.standard_binders.specs.Functions.{HaveFewParameters};
ghost use Rattle.meta_object.specs.Contexts.{KeepsContext};
ghost use Rattle.dlr_engine.specs.Bindings.{HasProperContent, IsBindable, IsRuleFor};

use dyn_value::{Fault, Outcome, Value};
use expando_class::ClassRef;
use meta_object::{
    BindContext, Language, MetaObject, metaobjects_describe_their_operands,
    operations_are_bound_by_their_metaobjects,
};
use rule::{Binds, Rule, bind};
use standard_binders::Binder;
use std::alloc::{AllocError, Global};
use std::sync::Wait;

/// A rule for the operation on these operands, of a language whose functions have few parameters.
pub(crate) fn bind_in<L: Language, R: Wait>(
    rt: &R,
    alloc: Global,
    lang: &L,
    binds: &mut Binds,
    cx: &mut BindContext,
    binder: &Binder,
    operands: &[Value],
    class: Option<&ClassRef>,
) -> Result<Rule, AllocError>
    requires few_binds { binds.old.count < 2 ^ 60 }
    requires few { HaveFewParameters (L.functions lang.now) }
    requires own { IsPassOf cx.old.table.now cx.old.pass.now }
    requires bindable { IsBindable (L.functions lang.now) cx.old.table.now binder.now operands.now (option_copied class) }
    ensures rule { IfOk result (
        IsRuleFor (L.functions lang.now) cx.new.pass.now binder.now operands.now (option_copied class.entry)) }
    ensures count { OnOk result (binds.new.count ≡ binds.old.count + 1) }
    ensures refused { OnErr result (binds.new.count ≡ binds.old.count) }
    ensures context { KeepsContext cx.old cx.new }
{
    show_few_operands(binder);
    let metas = metas_of(alloc, operands, class)?;
    metaobjects_describe_their_operands();
    operations_are_bound_by_their_metaobjects();
    let rule = bind(alloc, rt, binds, lang, cx, binder, metas.as_slice())?;
    // It is sound.
    rule.claim();
    Ok(rule)
}

/// The metaobjects of the operands; the class is lent to the first.
fn metas_of(
    alloc: Global,
    operands: &[Value],
    class: Option<&ClassRef>,
) -> Result<Vec<MetaObject>, AllocError>
    requires few { length operands.now ≤ 17 }
    requires lendable { (v : Operand) → slice_get operands.now 0 ≡ Some v → IsLendable (option_copied class) v }
    ensures { IfOk result (λ metas. AreMetasOf operands.now (option_copied class.entry) metas.items) }
{
    let mut metas = Vec::with_capacity(alloc, operands.len())?;
    for (number, value) in operands.iter().enumerate() {
        let meta = MetaObject::of(alloc, number as u8, value, lent_to(number, class))?;
        metas.push(meta)?;
    }
    Ok(metas)
}

/// The class is lent to the first operand.
fn lent_to<'c>(number: usize, class: Option<&'c ClassRef>) -> Option<&'c ClassRef>
    ensures { option_copied result ≡ lent_at number (option_copied class.entry) }
{
    if number == 0 { class } else { None }
}

/// Shows that an operation has at most 17 operands.
fn show_few_operands(binder: &Binder)
    ensures { operand_count_of binder.now ≤ 17 }
{
    match binder {
        Binder::Invoke { info }
        | Binder::InvokeMember { info, .. }
        | Binder::CreateInstance { info } => {
            info.count();
        }
        _ => {}
    }
}

/// Shows that a number or a text that was answered is proper, and so is what a fault names.
pub(crate) fn show_proper_content(outcome: &Outcome)
    ensures { HasProperContent outcome.now }
{
    match outcome {
        Outcome::Value(Value::Int(number)) => {
            let _number = *number;
        }
        Outcome::Value(Value::Text(text)) => {
            text.as_str();
        }
        Outcome::Fault(Fault::NoMember(name)) => {
            name.as_str();
        }
        Outcome::Fault(Fault::NoParameter(name)) => {
            name.as_str();
        }
        Outcome::Fault(Fault::WrongCount(parameters, count)) => {
            let _parameters = *parameters;
            let _count = *count;
        }
        _ => {}
    }
}
