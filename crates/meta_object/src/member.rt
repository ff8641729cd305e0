//! The bound of an operation on a member of an object.
ghost use Rattle.std.specs.Prelude.{◌≡◌, ◌≤◌, ◌==◌, ℕ, List, length, IfOk, IsTrue, None, Some};
ghost use Rattle.std.specs.Option.{option_map};
ghost use Rattle.expando_class.specs.Class.{names_of, number_of, IsClassOf};
ghost use Rattle.expando_class.specs.Pass.{IsPassOf};
ghost use Rattle.object_model.specs.Accesses.{is_key};
ghost use Rattle.standard_binders.specs.Functions.{Functions};
ghost use Rattle.rule_model.specs.Claims.{IsPlaced};
ghost use Rattle.rule_model.specs.MemberAnswers.{IsMemberAnswer, is_by_key, reach_of};
ghost use Rattle.meta_object.specs.declared.meta.MetaObject.{MetaObject};
ghost use Rattle.meta_object.specs.Bindings.{HasTests, IsBinding};
ghost use Rattle.meta_object.specs.Contexts.{KeepsContext};
ghost use Rattle.meta_object.specs.Metas.{target_class};
ghost use Rattle.meta_object.specs.Reaching.{IsNext, reached_name, member_tests_on};

use crate::bound::Bound;
use crate::context::BindContext;
use dyn_value::{DynText, Kind};
use expando_class::{ClassRef, ClassTable};
use expr_tree::Body;
use restrictions::{Restriction, Restrictions};
use rule_model::{Claim, ClassClaim, Reach};
use standard_binders::Binder;
use std::alloc::{AllocError, Global};
use std::sync::Wait;

/// The most members of an object.
const MOST_MEMBERS: u16 = 64;

/// The bound of the operation of a binder on the member of a name, of an object of this class. The name is the one that
/// the binder carries, or the key of an index. The one error is want of memory; the table may then have a further class
/// that no object has, and the pass may know it.
pub fn member_bound<R: Wait>(
    alloc: Global,
    rt: &R,
    cx: &mut BindContext,
    binder: &Binder,
    class: &ClassRef,
    name: &DynText,
) -> Result<Bound, AllocError>
    requires own { IsPassOf cx.old.table.now cx.old.pass.now }
    requires of { IsClassOf cx.old.table.now class.now }
    requires key { IsTrue (is_key name.now) }
    ensures bound { IfOk result (λ bound. (functions : Functions) (metas : List MetaObject) →
        target_class metas ≡ Some class.now → reached_name binder.now metas ≡ Some name.now →
        IsBinding functions cx.new.pass.now binder.now metas bound) }
    ensures tests { IfOk result (λ bound. (metas : List MetaObject) →
        target_class metas ≡ Some class.now → reached_name binder.now metas ≡ Some name.now →
        HasTests binder.now metas bound) }
    ensures answer { IfOk result (λ bound.
        IsMemberAnswer (reach_of binder.now) (number_of class.now) name.now bound.body bound.claim) }
    ensures context { KeepsContext cx.old cx.new }
{
    let reach = Reach::of(binder);
    let place = place_in(cx.table, class, name);
    let next = class_after(rt, cx, class, name, reach, place)?;
    let after = number_of(next);
    let full = is_full(cx.table, class);
    let node = reach.node(name, place, full, after.unwrap_or(0))?;
    let claimed = ClassClaim {
        class: class.number(),
        name: name.copy()?,
        place,
        full,
        after,
    };
    Ok(Bound {
        restrictions: member_tests(alloc, binder, class, name)?,
        body: Body::single(alloc, node)?,
        claim: Claim {
            class: Some(claimed),
            fun: None,
        },
    })
}

/// Whether the class has as many names as an object may have members.
fn is_full(table: &ClassTable, class: &ClassRef) -> bool
    requires { IsClassOf table.now class.now }
    ensures full { result ≡ (length (names_of class.now) == 64) }
    ensures few { length (names_of class.now) ≤ 64 }
{
    table.size(class) == MOST_MEMBERS
}

/// The number of a class that may be there.
fn number_of(class: Option<ClassRef>) -> Option<u128>
    ensures { result ≡ option_map number_of class }
{
    class.map(|class| class.number())
}

/// The place of a name in a class.
pub(crate) fn place_in(table: &ClassTable, class: &ClassRef, name: &DynText) -> Option<u16>
    requires { IsClassOf table.now class.now }
    ensures { IsPlaced (names_of class.now) name.now result }
{
    table.place_of(class, name.as_str())
}

/// The class to which an object of this class moves, where it does.
fn class_after<R: Wait>(
    rt: &R,
    cx: &mut BindContext,
    class: &ClassRef,
    name: &DynText,
    reach: Reach,
    place: Option<u16>,
) -> Result<Option<ClassRef>, AllocError>
    requires own { IsPassOf cx.old.table.now cx.old.pass.now }
    requires of { IsClassOf cx.old.table.now class.now }
    requires key { IsTrue (is_key name.now) }
    requires placed { IsPlaced (names_of class.now) name.now place }
    ensures next { IfOk result (IsNext cx.new.pass.now class.now reach name.now place) }
    ensures context { KeepsContext cx.old cx.new }
{
    match (reach, place) {
        (Reach::Writes(_), None) => {
            let next = class_with(rt, cx, class, name)?;
            Ok(next)
        }
        (Reach::Deletes, Some(place)) => {
            let next = class_without(rt, cx, class, name, place)?;
            Ok(next)
        }
        _ => Ok(None),
    }
}

/// The class with a name more; none where it is full.
fn class_with<R: Wait>(
    rt: &R,
    cx: &mut BindContext,
    class: &ClassRef,
    name: &DynText,
) -> Result<Option<ClassRef>, AllocError>
    requires own { IsPassOf cx.old.table.now cx.old.pass.now }
    requires of { IsClassOf cx.old.table.now class.now }
    requires key { IsTrue (is_key name.now) }
    requires placed { IsPlaced (names_of class.now) name.now None }
    ensures next { IfOk result (λ next. (operand : ℕ) →
        IsNext cx.new.pass.now class.now (Reach.Writes operand) name.now None next) }
    ensures context { KeepsContext cx.old cx.new }
{
    if is_full(cx.table, class) {
        return Ok(None);
    }
    let added = cx.table.add(rt, cx.pass, class, name.as_str())?;
    Ok(Some(added))
}

/// The class without the name at a place.
fn class_without<R: Wait>(
    rt: &R,
    cx: &mut BindContext,
    class: &ClassRef,
    name: &DynText,
    place: u16,
) -> Result<Option<ClassRef>, AllocError>
    requires own { IsPassOf cx.old.table.now cx.old.pass.now }
    requires of { IsClassOf cx.old.table.now class.now }
    requires placed { IsPlaced (names_of class.now) name.now (Some place) }
    ensures next { IfOk result (IsNext cx.new.pass.now class.now Reach.Deletes name.now (Some place)) }
    ensures context { KeepsContext cx.old cx.new }
{
    let left = cx.table.remove(rt, cx.pass, class, place)?;
    Ok(Some(left))
}

/// What the operation's tests look at: the class, and the key of an index.
fn member_tests(
    alloc: Global,
    binder: &Binder,
    class: &ClassRef,
    name: &DynText,
) -> Result<Restrictions, AllocError>
    ensures { IfOk result (λ tests. tests ≡ member_tests_on binder.now (number_of class.now) name.now) }
{
    let object = Restrictions::kind(alloc, 0, Kind::Obj)?;
    let tests = object.and(Restriction::Class(class.number()))?;
    if is_by_key(binder) {
        tests.and(Restriction::Key(1, name.copy()?))
    } else {
        Ok(tests)
    }
}

fn is_by_key(binder: &Binder) -> bool
    ensures { result ≡ is_by_key binder.now }
{
    matches!(
        binder,
        Binder::GetIndex | Binder::SetIndex | Binder::DeleteIndex
    )
}
