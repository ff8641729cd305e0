//! What the language answers of its own.
ghost use Rattle.std.specs.Prelude.{◌≡◌, ◌∷◌, [], false, IfOk, IsTrue, None, Some};
ghost use Rattle.restrictions.specs.Sets.{is_in, operand_fits};
ghost use Rattle.meta_object.specs.Contexts.{KeepsContext};
ghost use Rattle.meta_object.specs.Metas.{CanBind};
ghost use Rattle.fallback.specs.Answers as spec;
ghost use Rattle.fallback.specs.Answers.{IsOwn};

use crate::operand::{is_key, kind, object_class, operand, reached_name};
use crate::rows::row_bound;
use dyn_value::{Fault, Kind};
use expando_class::ClassRef;
use expr_tree::{Body, Node};
use meta_object::{BindContext, Bound, MetaObject, member_bound};
use restrictions::{Restriction, Restrictions};
use rule_model::Claim;
use standard_binders::{Binder, FunTable};
use std::alloc::{AllocError, Global};
use std::sync::Wait;

/// The language's own bound: of an operation on a member of an object that of the member, and else that of its row. The
/// one error is want of memory; the table may then have a further class that no object has, and the pass may know it.
pub(crate) fn own_bound<R: Wait>(
    alloc: Global,
    rt: &R,
    functions: &FunTable,
    cx: &mut BindContext,
    binder: &Binder,
    metas: &[MetaObject],
) -> Result<Bound, AllocError>
    requires can { CanBind functions.now.params cx.old.table.now cx.old.pass.now binder.now metas.now }
    ensures own { IfOk result (IsOwn functions.now.params cx.new.pass.now binder.now metas.now) }
    ensures context { KeepsContext cx.old cx.new }
{
    match object_class(binder, metas) {
        Some(class) => object_bound(alloc, rt, functions, cx, binder, metas, class),
        None => {
            let own = row_bound(alloc, functions, binder, metas)?;
            Ok(own)
        }
    }
}

/// The bound of an operation on a member of an object of this class.
fn object_bound<R: Wait>(
    alloc: Global,
    rt: &R,
    functions: &FunTable,
    cx: &mut BindContext,
    binder: &Binder,
    metas: &[MetaObject],
    class: &ClassRef,
) -> Result<Bound, AllocError>
    requires can { CanBind functions.now.params cx.old.table.now cx.old.pass.now binder.now metas.now }
    requires class { spec.object_class binder.now metas.now ≡ Some class.now }
    ensures own { IfOk result (IsOwn functions.now.params cx.new.pass.now binder.now metas.now) }
    ensures context { KeepsContext cx.old cx.new }
{
    match reached_name(binder, metas) {
        Some(name) if is_key(name) => {
            let own = member_bound(alloc, rt, cx, binder, class, name)?;
            Ok(own)
        }
        Some(_) => {
            let long = no_key_bound(alloc, Restriction::LongKey(1))?;
            Ok(long)
        }
        None => {
            let other = no_key_bound(alloc, Restriction::Kind(1, kind(operand(metas, 1))))?;
            Ok(other)
        }
    }
}

/// The bound of an index operation on an object by a key that names no member. The test is that of the key.
fn no_key_bound(alloc: Global, test: Restriction) -> Result<Bound, AllocError>
    requires new { is_in test (Restriction.Kind 0 Kind.Obj ∷ []) ≡ false }
    requires operand { IsTrue (operand_fits test) }
    ensures tests { IfOk result (λ bound. bound.restrictions ≡ Restriction.Kind 0 Kind.Obj ∷ test ∷ []) }
    ensures body { IfOk result (λ bound. bound.body ≡ Node.Throw Fault.NoIndex ∷ []) }
    ensures claim { IfOk result (λ bound. bound.claim ≡ record { class = None; fun = None }) }
{
    Ok(Bound {
        restrictions: Restrictions::kind(alloc, 0, Kind::Obj)?.and(test)?,
        body: Body::single(alloc, Node::Throw(Fault::NoIndex))?,
        claim: Claim {
            class: None,
            fun: None,
        },
    })
}
