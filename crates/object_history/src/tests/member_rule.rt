//! A rule for one operation on a member, worked out from the place of the name in the object's class.
ghost use Rattle.std.specs.Prelude.{◌≡◌, ◌≤◌, ◌==◌, ◌∷◌, [], ℕ, List, None, Some, length, unwrap_or};
ghost use Rattle.std.specs.Prelude.{IfOk, IfSome, IsTrue};
ghost use Rattle.std.specs.Option.{option_map};
ghost use Rattle.dyn_value.specs.declared.value.Value.{Value as Operand};
ghost use Rattle.dyn_value.specs.declared.value.Value.TheVariants as operand;
ghost use Rattle.expando_class.specs.Class.{IsClassOf, names_of, number_of};
ghost use Rattle.expando_class.specs.Pass.{IsPassOf};
ghost use Rattle.expr_tree.specs.Meanings.{State};
ghost use Rattle.expr_tree.specs.Trees.{root};
ghost use Rattle.object_model.specs.Accesses.{is_key};
ghost use Rattle.object_model.specs.Members.{AreMembers, Members};
ghost use Rattle.object_model.specs.Steps.{Step, object_step};
ghost use Rattle.rule_model.specs.Claims.{IsPlaced, ListHolds, changed};
ghost use Rattle.rule_model.specs.MemberAnswers.{member_after, name_of};
ghost use Rattle.rule_model.specs.Soundness.{Does, named_class};
ghost use Rattle.rule_model.specs.States.{HasMembers};
ghost use Rattle.tree_eval.specs.States.{names_after};

use crate::Sound;
use dyn_value::DynText;
use expando_class::{ClassPass, ClassRef, ClassTable};
use expr_tree::Body;
use rule_model::{ClassClaim, Reach};
use standard_binders::Binder;
use std::alloc::{AllocError, Global};
use std::sync::Wait;

/// The most members of an object.
const MOST_MEMBERS: u16 = 64;

/// What one operation does to an object of one class.
#[derive(Drop)]
pub(super) struct MemberRule {
    binder: Binder,
    claim: ClassClaim,
    body: Body,
    // Where the claim holds of an object's class and of the class after, the body does the operation's step.
    ghost does: { (s : State) (ms : Members) (more : List (List ℕ)) (object : ℕ)
        (arguments : List Operand) (step : Step)
        → HasMembers s ms → AreMembers ms → object_step ms binder arguments ≡ Some step
        → (s.class ≡ claim.class) × ListHolds claim s.names more
        → ∥ Does body (operand.Obj object ∷ arguments) more s step ∥₁ },
}

impl Sound for MemberRule {
    ghost binder_of = { λ r. r.binder };

    ghost body_of = { λ r. r.body };

    ghost fits = { λ r operands s more. (s.class ≡ r.claim.class) × ListHolds r.claim s.names more };

    fn binder(&self) -> &Binder {
        &self.binder
    }

    fn body(&self) -> &Body {
        &self.body
    }

    ghost sound = { λ r. r.does };
}

/// The rule for a binder on the member of its name, of an object of this class, and the class to which that moves.
pub(super) fn rule_of<R: Wait>(
    rt: &R,
    alloc: Global,
    table: &ClassTable,
    classes: &mut ClassPass,
    class: &ClassRef,
    binder: &Binder,
    name: &DynText,
) -> Result<(MemberRule, Option<ClassRef>), AllocError>
    requires own { IsPassOf table.now classes.old }
    requires of { IsClassOf table.now class.now }
    requires named { name_of binder.now ≡ Some name.now }
    requires key { IsTrue (is_key name.now) }
    ensures own { IsPassOf table.now classes.new }
    ensures binder { IfOk result (λ r. r.0.binder ≡ binder.now) }
    ensures class { IfOk result (λ r. r.0.claim.class ≡ number_of class.now) }
    ensures holds { IfOk result (λ r. ListHolds r.0.claim (names_of class.now) (names_after r.1)) }
    ensures number { IfOk result (λ r. option_map number_of r.1 ≡ named_class (root r.0.body)) }
    ensures of { IfOk result (λ r. IfSome r.1 (IsClassOf table.now)) }
{
    let reach = Reach::of(binder);
    let place = place_in(table, class, name);
    let full = table.size(class) == MOST_MEMBERS;
    let next = class_after(rt, table, classes, class, name, reach, place, full)?;
    let after = number_in(&next);
    let moved = after.unwrap_or(0);
    let body = Body::single(alloc, reach.node(name, place, full, moved)?)?;
    let claim = ClassClaim {
        class: class.number(),
        name: name.copy()?,
        place,
        full,
        after,
    };
    let rule = MemberRule {
        binder: binder.copy()?,
        claim,
        body,
    };
    Ok((rule, next))
}

/// The place of a name in a class.
fn place_in(table: &ClassTable, class: &ClassRef, name: &DynText) -> Option<u16>
    requires { IsClassOf table.now class.now }
    ensures { IsPlaced (names_of class.now) name.now result }
{
    table.place_of(class, name.as_str())
}

/// The number of a class that may be there.
fn number_in(class: &Option<ClassRef>) -> Option<u128>
    ensures { result ≡ option_map number_of class.now }
{
    match class {
        Some(class) => Some(class.number()),
        None => None,
    }
}

/// The class to which an object of this class moves, where it does.
fn class_after<R: Wait>(
    rt: &R,
    table: &ClassTable,
    classes: &mut ClassPass,
    class: &ClassRef,
    name: &DynText,
    reach: Reach,
    place: Option<u16>,
    full: bool,
) -> Result<Option<ClassRef>, AllocError>
    requires own { IsPassOf table.now classes.old }
    requires of { IsClassOf table.now class.now }
    requires key { IsTrue (is_key name.now) }
    requires placed { IsPlaced (names_of class.now) name.now place }
    requires full { full ≡ (length (names_of class.now) == 64) }
    requires few { length (names_of class.now) ≤ 64 }
    ensures own { IsPassOf table.now classes.new }
    ensures of { IfOk result (λ next. IfSome next (IsClassOf table.now)) }
    ensures number { IfOk result (λ next. option_map number_of next
        ≡ member_after reach place full (unwrap_or (option_map number_of next) 0)) }
    ensures names { IfOk result (λ next. IfSome next
        (λ after. names_of after ≡ changed (names_of class.now) name.now place)) }
{
    match (reach, place) {
        (Reach::Writes(_), None) if !full => {
            let added = table.add(rt, classes, class, name.as_str())?;
            Ok(Some(added))
        }
        (Reach::Deletes, Some(place)) => {
            let left = table.remove(rt, classes, class, place)?;
            Ok(Some(left))
        }
        _ => Ok(None),
    }
}
