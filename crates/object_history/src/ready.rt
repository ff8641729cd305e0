//! What an operation on an object takes of memory.
ghost use Rattle.std.specs.Prelude.{◌≡◌, ◌<◌, IfOk, vec_len, vec_capacity};
ghost use Rattle.expando_object.specs.State.{class_in, values_in};
ghost use Rattle.expr_tree.specs.Meanings.{IsThere};
ghost use Rattle.expr_tree.specs.Trees.{root};
ghost use Rattle.tree_eval.specs.States.{IsPrepared, answer_kept};
ghost use Rattle.object_history.specs.Operands.{IsOperation};
ghost use Rattle.object_history.specs.Readies.{operands_of};

use crate::entry_head::EntryHead;
use dyn_value::{Entry, Outcome, Value};
use expando_object::ObjState;
use expr_tree::Body;
use sqlite_items::Items;
use std::alloc::{AllocError, Global};
use tree_eval::Prepared;

/// All that an operation on an object takes of memory.
#[derive(Drop)]
pub struct Ready {
    pub(crate) head: EntryHead,
    pub(crate) object: u32,
    // The operands after the object.
    pub(crate) arguments: Items<Value>,
    pub(crate) outcome: Outcome,
    pub(crate) prepared: Prepared,
}

/// What an operation on an object of this state needs. The state's class and values and the entries stay.
pub(crate) fn make_ready(
    alloc: Global,
    state: &mut ObjState,
    journal: &mut Vec<Entry>,
    body: &Body,
    head: EntryHead,
    operands: &[Value],
) -> Result<Ready, AllocError>
    requires operation { IsOperation operands.now }
    requires there { IsThere operands.now (values_in state.old) (root body.now) }
    ensures headed { IfOk result (λ r. r.head ≡ head) }
    ensures operands { IfOk result (λ r. operands.now ≡ operands_of r) }
    ensures prepared { IfOk result (λ r. IsPrepared r.prepared operands.now state.new (root body.now)) }
    ensures outcome { IfOk result (λ r. r.outcome ≡ answer_kept r.prepared) }
    ensures room { IfOk result (λ r. vec_len journal.new < vec_capacity journal.new) }
    ensures class { class_in state.new ≡ class_in state.old }
    ensures values { values_in state.new ≡ values_in state.old }
    ensures journal { journal.new.items ≡ journal.old.items }
{
    let [Value::Obj(object), arguments @ ..] = operands else {
        unreachable!()
    };
    let arguments = copies(alloc, arguments)?;
    journal.reserve(1)?;
    let prepared = Prepared::make(alloc, body, operands, state)?;
    let outcome = prepared.outcome().copy()?;
    Ok(Ready {
        head,
        object: *object,
        arguments,
        outcome,
        prepared,
    })
}

/// Equal values.
fn copies(alloc: Global, values: &[Value]) -> Result<Items<Value>, AllocError>
    ensures { IfOk result (λ copies. copies ≡ values.now) }
{
    let mut copies = Items::new(alloc);
    for value in values {
        copies.push(value.copy()?)?;
    }
    Ok(copies)
}
