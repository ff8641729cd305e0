//! Bodies over the state of an object: copies are prepared first, and written then.
ghost use Rattle.std.specs.Prelude.{◌≡◌, ◌≤◌, List, IfOk, OnOk, unwrap_or};
ghost use Rattle.dyn_value.specs.declared.value.Value.{Value as Operand};
ghost use Rattle.expr_tree.specs.Meanings.{answer_in, state_after, IsThere};
ghost use Rattle.expr_tree.specs.Trees.{root};
ghost use Rattle.expando_object.specs.State.{class_in, names_in, values_in, spare_in};
ghost use Rattle.tree_eval.specs.States.{state_of, value_written, HasRoom, answer_kept, IsPrepared, IsClassAfter, names_after};

use crate::answer::{answer, copy_of};
use dyn_value::{Outcome, Value};
use expando_class::ClassRef;
use expando_object::ObjState;
use expr_tree::{Body, Node};
use std::alloc::{AllocError, Global};

/// What a body will answer and write.
#[derive(Drop)]
pub struct Prepared {
    outcome: Outcome,
    written: Option<Value>,
}

impl Prepared {
    /// Copies what the body will answer of these operands and this state, and what it will write, and makes room for a
    /// value that it appends. The one error is want of memory. Either way the state's class, names and values stay, and
    /// the room that it had.
    pub fn make(
        alloc: Global,
        body: &Body,
        operands: &[Value],
        state: &mut ObjState,
    ) -> Result<Prepared, AllocError>
        // Its root names only operands and places that are there.
        requires { IsThere operands.now (values_in state.old) (root body.now) }
        ensures prepared { IfOk result (λ p. IsPrepared p operands.now state.new (root body.now)) }
        ensures class { class_in state.new ≡ class_in state.old }
        ensures values { values_in state.new ≡ values_in state.old }
        ensures spare { spare_in state.old ≤ spare_in state.new }
    {
        let root = body.root();
        make_room(root, state)?;
        let outcome = answer_over(alloc, root, operands, state)?;
        let written = copy_to_write(root, operands)?;
        Ok(Prepared { outcome, written })
    }

    /// What the body will answer.
    pub fn outcome(&self) -> &Outcome
        ensures { result.now ≡ answer_kept self.now }
    {
        &self.outcome
    }
}

/// Writes what was prepared, and answers what was. `after` is the class that an `Append` or a `Remove` names, and `None`
/// for any other root. It takes no memory.
pub fn eval(
    body: &Body,
    prepared: Prepared,
    state: &mut ObjState,
    after: Option<ClassRef>,
) -> Outcome
    // It was prepared for this body and this state.
    requires prepared { (ops : List Operand) × IsPrepared prepared ops state.old (root body.now) }
    requires after { IsClassAfter after (names_in state.old) (root body.now) }
    ensures kept { result ≡ answer_kept prepared }
    ensures outcome { (ops : List Operand) → IsPrepared prepared ops state.old (root body.now)
        → result ≡ answer_in ops (state_of state.old) (root body.now) }
    ensures state { (ops : List Operand) → IsPrepared prepared ops state.old (root body.now)
        → state_of state.new ≡ state_after ops (names_after after) (state_of state.old) (root body.now) }
    ensures class { class_in state.new ≡ unwrap_or after (class_in state.old) }
{
    match (body.root(), prepared.written, after) {
        (Node::Write(place, _), Some(value), _) => {
            state.write(*place, value);
        }
        (Node::Append(_, _), Some(value), Some(class)) => state.append(class, value),
        (Node::Remove(place, _), _, Some(class)) => {
            state.remove(*place, class);
        }
        _ => {}
    }
    prepared.outcome
}

/// Makes room for one more value where the node appends. Class and values stay.
fn make_room(node: &Node, state: &mut ObjState) -> Result<(), AllocError>
    ensures room { OnOk result (HasRoom state.new node.now) }
    ensures class { class_in state.new ≡ class_in state.old }
    ensures values { values_in state.new ≡ values_in state.old }
    ensures spare { spare_in state.old ≤ spare_in state.new }
{
    match node {
        Node::Append(_, _) => state.reserve(),
        _ => Ok(()),
    }
}

/// What a body with this root answers of the operands and the state.
fn answer_over(
    alloc: Global,
    node: &Node,
    operands: &[Value],
    state: &ObjState,
) -> Result<Outcome, AllocError>
    requires { IsThere operands.now (values_in state.now) node.now }
    ensures { IfOk result (λ o. o ≡ answer_in operands.now (state_of state.now) node.now) }
{
    // There are as many values as names.
    let _class = state.class();
    match node {
        Node::Read(place) => Ok(Outcome::Value(state.read(*place).copy()?)),
        Node::Write(_, _) | Node::Append(_, _) | Node::Remove(_, _) => {
            Ok(Outcome::Value(Value::Nil))
        }
        _ => answer(alloc, node, operands),
    }
}

/// A copy of the operand that a body with this root writes.
fn copy_to_write(node: &Node, operands: &[Value]) -> Result<Option<Value>, AllocError>
    requires { (values : List Operand) × IsThere operands.now values node.now }
    ensures { IfOk result (λ v. v ≡ value_written operands.now node.now) }
{
    Ok(match node {
        Node::Write(_, number) | Node::Append(_, number) => Some(copy_of(operands, *number)?),
        _ => None,
    })
}
