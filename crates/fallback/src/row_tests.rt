//! What the language looks at where it looks at no object.
ghost use Rattle.std.specs.Prelude.{◌≡◌, ◌∷◌, [], ◌<◌, true, None, IfOk, length, map};
ghost use Rattle.rule_model.specs.Tests.{called_tests as spec_called_tests, form_of, tests_by};
ghost use Rattle.standard_binders.specs.Binders.{is_on_members, operand_count_of};
ghost use Rattle.meta_object.specs.Metas.{kind_in, known_in};
ghost use Rattle.fallback.specs.Own.{known_at};

use crate::operand::{kind, operand};
use dyn_value::{Kind, Value};
use meta_object::MetaObject;
use restrictions::{Restriction, Restrictions};
use standard_binders::Binder;
use std::alloc::{AllocError, Global};

/// The tests of an operation that looks at no object. The one error is want of memory.
pub(crate) fn row_tests(
    alloc: Global,
    binder: &Binder,
    metas: &[MetaObject],
) -> Result<Restrictions, AllocError>
    requires count { length metas.now ≡ operand_count_of binder.now }
    requires no_class { is_on_members binder.now ≡ true → (known_at (map known_in metas.now) 0).class ≡ None }
    ensures { IfOk result (λ tests. tests ≡ tests_by (form_of binder.now) (map known_in metas.now)) }
{
    let target = operand(metas, 0);
    match binder {
        Binder::BinaryOperation { .. } => kinds(alloc, kind(target), kind(operand(metas, 1))),
        Binder::GetIndex if kind(target) == Kind::Text => {
            kinds(alloc, Kind::Text, kind(operand(metas, 1)))
        }
        Binder::Invoke { .. } | Binder::CreateInstance { .. } => called_tests(alloc, target),
        _ => Restrictions::kind(alloc, 0, kind(target)),
    }
}

/// The kinds of the target and of the operand after it.
pub(crate) fn kinds(alloc: Global, target: Kind, other: Kind) -> Result<Restrictions, AllocError>
    ensures { IfOk result (λ tests. tests ≡ Restriction.Kind 0 target ∷ Restriction.Kind 1 other ∷ []) }
{
    Restrictions::kind(alloc, 0, target)?.and(Restriction::Kind(1, other))
}

/// Of a function its number, and of another target its kind.
fn called_tests(alloc: Global, target: &MetaObject) -> Result<Restrictions, AllocError>
    ensures { IfOk result (λ tests.
        tests ≡ spec_called_tests (kind_in target.now.shape) target.now.value) }
{
    match &target.value {
        Some(Value::Fun(number)) => {
            Restrictions::kind(alloc, 0, Kind::Fun)?.and(Restriction::Fun(0, *number))
        }
        _ => Restrictions::kind(alloc, 0, kind(target)),
    }
}
