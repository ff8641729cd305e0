//! What an object of the runtime answers itself.
ghost use Rattle.std.specs.Prelude.{◌≡◌, IfOk, IfSome, IsSome, IsTrue, Some, is_some};
ghost use Rattle.std.specs.Option.{option_copied};
ghost use Rattle.expando_class.specs.Class.{IsClassOf, names_of};
ghost use Rattle.expando_class.specs.Pass.{IsPassOf};
ghost use Rattle.rule_model.specs.MemberAnswers.{name_of};
ghost use Rattle.standard_binders.specs.Functions.{Functions};
ghost use Rattle.meta_object.specs.Bindings.{HasTests, IsAbsent, IsBinding, IsOnMember, is_missing, is_suggested, read_name};
ghost use Rattle.meta_object.specs.Contexts.{KeepsContext};
ghost use Rattle.meta_object.specs.Metas.{has_key, target_class};
ghost use Rattle.meta_object.specs.Reaching.{is_for_old};

use crate::bound::Bound;
use crate::context::BindContext;
use crate::member::{member_bound, place_in};
use crate::meta::MetaObject;
use dyn_value::DynText;
use expando_class::{ClassRef, ClassTable};
use rule_model::Reach;
use standard_binders::Binder;
use std::alloc::{AllocError, Global};
use std::sync::Wait;

/// What the target answers itself to the operation of a binder that carries a name: nothing where it is no object, or
/// where its class has no member of the name that is to be there.
pub(crate) fn own_bound<R: Wait>(
    alloc: Global,
    rt: &R,
    cx: &mut BindContext,
    binder: &Binder,
    metas: &[MetaObject],
) -> Result<Option<Bound>, AllocError>
    requires named { IsSome (name_of binder.now) }
    requires key { IsTrue (has_key binder.now) }
    requires own { IsPassOf cx.old.table.now cx.old.pass.now }
    requires of { IfSome (target_class metas.now) (IsClassOf cx.old.table.now) }
    ensures binding { IfOk result (λ own. (functions : Functions) →
        IfSome own (IsBinding functions cx.new.pass.now binder.now metas.now)) }
    ensures tests { IfOk result (λ own. IfSome own (HasTests binder.now metas.now)) }
    ensures member { IfOk result (λ own.
        IfSome own (IsOnMember binder.now (target_class metas.now) (name_of binder.now))) }
    ensures exactly { IfOk result (λ own. is_some own ≡ is_suggested (read_name binder.now) (target_class metas.now)) }
    ensures absent { IfOk result (IsAbsent (read_name binder.now) (target_class metas.now)) }
    ensures context { KeepsContext cx.old cx.new }
{
    let Some(class) = target_class(metas) else {
        return Ok(None);
    };
    let name = member_name(binder);
    if is_missing(cx.table, class, binder, name) {
        return Ok(None);
    }
    let own = member_bound(alloc, rt, cx, binder, class, name)?;
    Ok(Some(own))
}

/// Whether the operation of a binder is a fault, since the class has no member of the name that the binder carries.
fn is_missing(table: &ClassTable, class: &ClassRef, binder: &Binder, name: &DynText) -> bool
    requires of { IsClassOf table.now class.now }
    requires named { name_of binder.now ≡ Some name.now }
    ensures { result ≡ is_missing (read_name binder.now) (names_of class.now) }
{
    must_be_there(Reach::of(binder)) && place_in(table, class, name).is_none()
}

/// The class of the target, where it is an object.
fn target_class(metas: &[MetaObject]) -> Option<&ClassRef>
    ensures { option_copied result ≡ target_class metas.now }
{
    metas.first()?.shape.class()
}

/// The name that a binder carries.
fn member_name(binder: &Binder) -> &DynText
    requires { IsSome (name_of binder.now) }
    ensures { name_of binder.now ≡ Some result.now }
{
    match binder {
        Binder::GetMember { name, .. }
        | Binder::SetMember { name, .. }
        | Binder::DeleteMember { name, .. }
        | Binder::InvokeMember { name, .. } => name,
        _ => unreachable!(),
    }
}

/// Whether an operation that reaches a member in this way is a fault where there is none.
fn must_be_there(reach: Reach) -> bool
    ensures { result ≡ is_for_old reach }
{
    !matches!(reach, Reach::Writes(_))
}
