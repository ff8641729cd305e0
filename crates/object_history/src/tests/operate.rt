//! An operation on a member, from its rule to the journal.
ghost use Rattle.std.specs.Prelude.{◌≡◌, ◌++◌, ◌∷◌, [], List, Some, drop, false, slice_get, true};
ghost use Rattle.std.specs.Prelude.{IfOk, IfSome, IsSome, IsTrue, OnErr};
ghost use Rattle.std.specs.List.{AllByRecursion};
ghost use Rattle.dyn_value.specs.declared.value.Value.{Value as Operand};
ghost use Rattle.dyn_value.specs.Proper.{IsProperIn};
ghost use Rattle.expando_class.specs.Pass.{IsPassOf};
ghost use Rattle.object_model.specs.Accesses.{access_of, is_key};
ghost use Rattle.rule_model.specs.MemberAnswers.{name_of};
ghost use Rattle.object_history.specs.Entries.{entry_by};
ghost use Rattle.object_history.specs.Operands.{IsOperation};
ghost use Rattle.object_history.specs.Rows.{idles_of, journal_of, table_of, tag_of};

use super::member_rule::rule_of;
use crate::{EntryHead, ObjectRow, Sound};
use dyn_value::{DynText, Outcome, Value};
use expando_class::{ClassPass, ClassTable};
use standard_binders::Binder;
use std::alloc::{AllocError, Global};
use std::sync::Wait;

/// Why an operation was not made.
#[derive(Debug, Drop)]
pub(super) enum Refused {
    /// Memory was refused.
    Memory,
    /// The binder is none on a member, or the value does not suit it.
    Operation,
}

impl From<AllocError> for Refused {
    fn from(_: AllocError) -> Refused {
        Refused::Memory
    }
}

/// Makes the operation of the head's binder on the object, with the value that it writes.
pub(super) fn operate<R: Wait>(
    rt: &R,
    alloc: Global,
    table: &ClassTable,
    classes: &mut ClassPass,
    binders: &[Binder],
    row: &mut ObjectRow<'_>,
    head: EntryHead,
    value: Option<i64>,
) -> Result<Outcome, Refused>
    requires own { IsPassOf table.now classes.old }
    requires table { table_of row.old ≡ table.now }
    requires binders { (tag_of row.old).binders.now ≡ binders.now }
    ensures own { IsPassOf table.now classes.new }
    ensures table { table_of row.new ≡ table_of row.old }
    ensures tag { tag_of row.new ≡ tag_of row.old }
    ensures idles { idles_of row.new ≡ idles_of row.old }
    ensures journal { IfOk result (λ o. (arguments : List Operand)
        × (journal_of row.new ≡ journal_of row.old ++ entry_by head arguments o ∷ [])) }
    ensures refused { OnErr result (journal_of row.new ≡ journal_of row.old) }
{
    let Some(binder) = binders.get(head.binder as usize) else {
        return Err(Refused::Operation);
    };
    let Some(name) = member_name(binder, value.is_some()) else {
        return Err(Refused::Operation);
    };
    let outcome = match value {
        None => {
            let operands = [Value::Obj(0)];
            operate_by(
                rt, alloc, table, classes, row, binder, name, head, &operands,
            )?
        }
        Some(value) => {
            let operands = [Value::Obj(0), Value::Int(value)];
            operate_by(
                rt, alloc, table, classes, row, binder, name, head, &operands,
            )?
        }
    };
    Ok(outcome)
}

/// The name of the member that the binder writes, or else reads or removes, where it may be the name of one.
fn member_name(binder: &Binder, writes: bool) -> Option<&DynText>
    ensures named { IfSome result (λ name. name_of binder.now ≡ Some name.now) }
    ensures key { IfSome result (λ name. IsTrue (is_key name.now)) }
    ensures alone { writes ≡ false → IsSome result → IsSome (access_of binder.now []) }
    ensures value { (v : Operand) → writes ≡ true → IsSome result → IsSome (access_of binder.now (v ∷ [])) }
{
    let name = match binder {
        Binder::GetMember { name, .. } | Binder::DeleteMember { name, .. } if !writes => name,
        Binder::SetMember { name, .. } if writes => name,
        _ => return None,
    };
    if name.as_str().len() > 64 {
        return None;
    }
    Some(name)
}

/// Makes the operation of a binder on the member of its name.
fn operate_by<R: Wait>(
    rt: &R,
    alloc: Global,
    table: &ClassTable,
    classes: &mut ClassPass,
    row: &mut ObjectRow<'_>,
    binder: &Binder,
    name: &DynText,
    head: EntryHead,
    operands: &[Value],
) -> Result<Outcome, AllocError>
    requires own { IsPassOf table.now classes.old }
    requires table { table_of row.old ≡ table.now }
    requires number { slice_get (tag_of row.old).binders.now head.binder ≡ Some binder.now }
    requires named { name_of binder.now ≡ Some name.now }
    requires key { IsTrue (is_key name.now) }
    requires operation { IsOperation operands.now }
    requires suits { IsSome (access_of binder.now (drop 1 operands.now)) }
    requires proper { AllByRecursion (IsProperIn (tag_of row.old).functions (tag_of row.old).limit)
        (drop 1 operands.now) }
    ensures own { IsPassOf table.now classes.new }
    ensures table { table_of row.new ≡ table_of row.old }
    ensures tag { tag_of row.new ≡ tag_of row.old }
    ensures idles { idles_of row.new ≡ idles_of row.old }
    ensures journal { IfOk result (λ o.
        journal_of row.new ≡ journal_of row.old ++ entry_by head (drop 1 operands.now) o ∷ []) }
    ensures refused { OnErr result (journal_of row.new ≡ journal_of row.old) }
{
    let class = row.state().class().copy();
    let (rule, after) = rule_of(rt, alloc, table, classes, &class, binder, name)?;
    let ready = row.prepare(alloc, rule.body(), head, operands)?;
    let outcome = row.commit(&rule, ready, after);
    Ok(outcome)
}
