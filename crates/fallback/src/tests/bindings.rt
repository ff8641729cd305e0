//! The bounds of operations, by the bindings and by the fallbacks.
ghost use Rattle.std.specs.Prelude.{IfOk};
ghost use Rattle.expando_class.specs.Class.{IsClassOf};
ghost use Rattle.expando_class.specs.Pass.{IsPassOf};
ghost use Rattle.meta_object.specs.Bindings.{IsSoundFor, IsSuggestion};
ghost use Rattle.meta_object.specs.Contexts.{KeepsContext};
ghost use Rattle.meta_object.specs.Metas.{CanBind};

use crate::Script;
use crate::tests::metas::metas_for;
use crate::tests::operation::{Operation, binder, script, values};
use expando_class::{ClassPass, ClassRef, ClassTable};
use meta_object::{BindContext, Bound, Language, MetaObject};
use standard_binders::Binder;
use std::alloc::{AllocError, Global};
use std::sync::Wait;
use std::test::Fail;

/// Which call of an operation's binder is made.
#[derive(Clone, Copy, Debug)]
pub(crate) enum Way {
    Bind,
    FallBack,
    /// The fallback, where what it answers by itself is suggested to it.
    Beside,
}

/// Each of them.
pub(crate) const WAYS: [Way; 3] = [Way::Bind, Way::FallBack, Way::Beside];

/// The test and the body of an operation's bound.
pub(crate) fn printed_bound(
    rt: &impl Wait,
    alloc: Global,
    operation: Operation,
    way: Way,
) -> Result<Vec<u8>, Fail> {
    let bound = bound_of(rt, alloc, operation, way)?;
    printed(alloc, &bound)
}

/// The bound of an operation. The class of the target is the last of a table of its own.
pub(crate) fn bound_of(
    rt: &impl Wait,
    alloc: Global,
    operation: Operation,
    way: Way,
) -> Result<Bound, Fail> {
    let table = ClassTable::new(alloc)?;
    let mut pass = table.pass(alloc)?;
    let class = class_of(rt, &table, &mut pass, operation.names)?;
    let language = script(alloc)?;
    let binder = binder(alloc, operation.asked)?;
    let operands = values(alloc, operation.operands)?;
    let functions = &language.functions;
    let metas = metas_for(alloc, functions, &table, &pass, &binder, &operands, &class)?;
    let mut cx = BindContext {
        table: &table,
        pass: &mut pass,
    };
    let bound = match way {
        Way::Bind => bind(alloc, rt, &language, &mut cx, &binder, &metas)?,
        Way::FallBack => fall_back(alloc, rt, &language, &mut cx, &binder, &metas, None)?,
        Way::Beside => fall_back_beside(alloc, rt, &language, &mut cx, &binder, &metas)?,
    };
    Ok(bound)
}

/// The test and the body of a bound.
pub(crate) fn printed(alloc: Global, bound: &Bound) -> Result<Vec<u8>, Fail> {
    let mut out = Vec::new(alloc);
    bound.restrictions.to_tree(alloc)?.print_to(&mut out)?;
    out.push(b' ')?;
    bound.body.tree().print_to(&mut out)?;
    Ok(out)
}

/// The class with these names; its number is their count.
pub(crate) fn class_of(
    rt: &impl Wait,
    table: &ClassTable,
    pass: &mut ClassPass,
    names: &[&str],
) -> Result<ClassRef, Fail>
    requires { IsPassOf table.now pass.old }
    ensures pass { IsPassOf table.now pass.new }
    ensures of { IfOk result (IsClassOf table.now) }
{
    let mut class = table.root();
    for name in names {
        class = with_name(rt, table, pass, &class, name)?;
    }
    Ok(class)
}

/// The class with a name more at the end.
fn with_name(
    rt: &impl Wait,
    table: &ClassTable,
    pass: &mut ClassPass,
    class: &ClassRef,
    name: &str,
) -> Result<ClassRef, Fail>
    requires pass { IsPassOf table.now pass.old }
    requires of { IsClassOf table.now class.now }
    ensures pass { IsPassOf table.now pass.new }
    ensures of { IfOk result (IsClassOf table.now) }
{
    if table.place_of(class, name).is_some() || table.size(class) >= 64 || name.len() > 64 {
        return Err(Fail::new("no room"));
    }
    let added = table.add(rt, pass, class, name)?;
    Ok(added)
}

/// What is bound by the call of the binder.
fn bind<R: Wait>(
    alloc: Global,
    rt: &R,
    language: &Script,
    cx: &mut BindContext,
    binder: &Binder,
    metas: &[MetaObject],
) -> Result<Bound, AllocError>
    requires { CanBind language.now.functions.params cx.old.table.now cx.old.pass.now binder.now metas.now }
{
    match binder {
        Binder::GetMember { .. } => {
            MetaObject::bind_get_member(alloc, rt, language, cx, binder, metas)
        }
        Binder::SetMember { .. } => {
            MetaObject::bind_set_member(alloc, rt, language, cx, binder, metas)
        }
        Binder::DeleteMember { .. } => {
            MetaObject::bind_delete_member(alloc, rt, language, cx, binder, metas)
        }
        Binder::GetIndex => { MetaObject::bind_get_index(alloc, rt, language, cx, binder, metas) }
        Binder::SetIndex => { MetaObject::bind_set_index(alloc, rt, language, cx, binder, metas) }
        Binder::DeleteIndex => {
            MetaObject::bind_delete_index(alloc, rt, language, cx, binder, metas)
        }
        Binder::Invoke { .. } => { MetaObject::bind_invoke(alloc, rt, language, cx, binder, metas) }
        Binder::InvokeMember { .. } => {
            MetaObject::bind_invoke_member(alloc, rt, language, cx, binder, metas)
        }
        Binder::CreateInstance { .. } => {
            MetaObject::bind_create_instance(alloc, rt, language, cx, binder, metas)
        }
        Binder::Convert { .. } => {
            MetaObject::bind_convert(alloc, rt, language, cx, binder, metas)
        }
        Binder::UnaryOperation { .. } => {
            MetaObject::bind_unary_operation(alloc, rt, language, cx, binder, metas)
        }
        Binder::BinaryOperation { .. } => {
            MetaObject::bind_binary_operation(alloc, rt, language, cx, binder, metas)
        }
    }
}

/// What the language answers to the call of the binder, where this is suggested.
pub(crate) fn fall_back<R: Wait>(
    alloc: Global,
    rt: &R,
    language: &Script,
    cx: &mut BindContext,
    binder: &Binder,
    metas: &[MetaObject],
    suggestion: Option<Bound>,
) -> Result<Bound, AllocError>
    requires can { CanBind language.now.functions.params cx.old.table.now cx.old.pass.now binder.now metas.now }
    requires suggestion { IsSuggestion language.now.functions.params cx.old.pass.now binder.now metas.now suggestion }
    ensures sound { IfOk result (IsSoundFor language.now.functions.params cx.new.pass.now binder.now metas.now) }
    ensures context { KeepsContext cx.old cx.new }
{
    match binder {
        Binder::GetMember { .. } => {
            language.fallback_get_member(alloc, rt, cx, binder, metas, suggestion)
        }
        Binder::SetMember { .. } => {
            language.fallback_set_member(alloc, rt, cx, binder, metas, suggestion)
        }
        Binder::DeleteMember { .. } => {
            language.fallback_delete_member(alloc, rt, cx, binder, metas, suggestion)
        }
        Binder::GetIndex => {
            language.fallback_get_index(alloc, rt, cx, binder, metas, suggestion)
        }
        Binder::SetIndex => {
            language.fallback_set_index(alloc, rt, cx, binder, metas, suggestion)
        }
        Binder::DeleteIndex => {
            language.fallback_delete_index(alloc, rt, cx, binder, metas, suggestion)
        }
        Binder::Invoke { .. } => {
            language.fallback_invoke(alloc, rt, cx, binder, metas, suggestion)
        }
        Binder::InvokeMember { .. } => {
            language.fallback_invoke_member(alloc, rt, cx, binder, metas, suggestion)
        }
        Binder::CreateInstance { .. } => {
            language.fallback_create_instance(alloc, rt, cx, binder, metas, suggestion)
        }
        Binder::Convert { .. } => {
            language.fallback_convert(alloc, rt, cx, binder, metas, suggestion)
        }
        Binder::UnaryOperation { .. } => {
            language.fallback_unary_operation(alloc, rt, cx, binder, metas, suggestion)
        }
        Binder::BinaryOperation { .. } => {
            language.fallback_binary_operation(alloc, rt, cx, binder, metas, suggestion)
        }
    }
}

/// What the language answers where its own answer is suggested to it.
fn fall_back_beside<R: Wait>(
    alloc: Global,
    rt: &R,
    language: &Script,
    cx: &mut BindContext,
    binder: &Binder,
    metas: &[MetaObject],
) -> Result<Bound, AllocError>
    requires { CanBind language.now.functions.params cx.old.table.now cx.old.pass.now binder.now metas.now }
{
    let own = fall_back(alloc, rt, language, cx, binder, metas, None)?;
    let beside = fall_back(alloc, rt, language, cx, binder, metas, Some(own))?;
    Ok(beside)
}
