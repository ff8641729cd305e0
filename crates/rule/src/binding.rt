//! The binding of operations, which alone makes rules.
ghost use Rattle.std.specs.Prelude.{◌≡◌, ◌+◌, ◌<◌, ◌^◌, IfOk, OnErr, OnOk};
ghost use Rattle.meta_object.specs.Bindings.{HasTests, IsBinding};
ghost use Rattle.meta_object.specs.Contexts.{KeepsContext};
ghost use Rattle.meta_object.specs.Metas.{CanBind};
ghost use Rattle.rule.specs.Rules.{IsBoundRule};

use crate::rule::Rule;
use meta_object::{BindContext, Bound, Language, MetaObject};
use standard_binders::Binder;
use std::alloc::{AllocError, Global};
use std::sync::Wait;

/// Counts the operations that were bound.
#[derive(Debug, Drop)]
pub struct Binds {
    pub count: u64,
}

/// Binds the operation of a binder on the operands of these metaobjects, the target first: the answer is a rule for it,
/// and is counted. The one error is want of memory; the count then stays, and the table may have a further class that
/// no object has, and the pass may know it.
pub fn bind<L: Language, R: Wait>(
    alloc: Global,
    rt: &R,
    binds: &mut Binds,
    lang: &L,
    cx: &mut BindContext,
    binder: &Binder,
    metas: &[MetaObject],
) -> Result<Rule, AllocError>
    requires few { binds.old.count < 2 ^ 60 }
    requires can { CanBind (L.functions lang.now) cx.old.table.now cx.old.pass.now binder.now metas.now }
    ensures bound { IfOk result (IsBoundRule (L.functions lang.now) cx.new.pass.now binder.now metas.now) }
    ensures count { OnOk result (binds.new.count ≡ binds.old.count + 1) }
    ensures refused { OnErr result (binds.new.count ≡ binds.old.count) }
    ensures context { KeepsContext cx.old cx.new }
{
    let bound = bound_for(alloc, rt, lang, cx, binder, metas)?;
    let rule = Rule::of(alloc, binder.copy()?, bound)?;
    binds.count += 1;
    Ok(rule)
}

/// What the metaobject of the target binds for the operation of the binder. The one error is want of memory.
fn bound_for<L: Language, R: Wait>(
    alloc: Global,
    rt: &R,
    lang: &L,
    cx: &mut BindContext,
    binder: &Binder,
    metas: &[MetaObject],
) -> Result<Bound, AllocError>
    requires can { CanBind (L.functions lang.now) cx.old.table.now cx.old.pass.now binder.now metas.now }
    ensures bound { IfOk result (IsBinding (L.functions lang.now) cx.new.pass.now binder.now metas.now) }
    ensures tests { IfOk result (HasTests binder.now metas.now) }
    ensures context { KeepsContext cx.old cx.new }
{
    match binder {
        Binder::GetMember { .. } => {
            MetaObject::bind_get_member(alloc, rt, lang, cx, binder, metas)
        }
        Binder::SetMember { .. } => {
            MetaObject::bind_set_member(alloc, rt, lang, cx, binder, metas)
        }
        Binder::DeleteMember { .. } => {
            MetaObject::bind_delete_member(alloc, rt, lang, cx, binder, metas)
        }
        Binder::GetIndex => MetaObject::bind_get_index(alloc, rt, lang, cx, binder, metas),
        Binder::SetIndex => MetaObject::bind_set_index(alloc, rt, lang, cx, binder, metas),
        Binder::DeleteIndex => MetaObject::bind_delete_index(alloc, rt, lang, cx, binder, metas),
        Binder::Invoke { .. } => MetaObject::bind_invoke(alloc, rt, lang, cx, binder, metas),
        Binder::InvokeMember { .. } => {
            MetaObject::bind_invoke_member(alloc, rt, lang, cx, binder, metas)
        }
        Binder::CreateInstance { .. } => {
            MetaObject::bind_create_instance(alloc, rt, lang, cx, binder, metas)
        }
        Binder::Convert { .. } => MetaObject::bind_convert(alloc, rt, lang, cx, binder, metas),
        Binder::UnaryOperation { .. } => {
            MetaObject::bind_unary_operation(alloc, rt, lang, cx, binder, metas)
        }
        Binder::BinaryOperation { .. } => {
            MetaObject::bind_binary_operation(alloc, rt, lang, cx, binder, metas)
        }
    }
}
