//! The nodes of calls and of creations, and what they rest on.
ghost use Rattle.std.specs.Prelude.{◌≡◌, IfOk, IsTrue};
ghost use Rattle.meta_object.specs.Metas.{is_callable, kind_in};
ghost use Rattle.fallback.specs.Own as spec;

use crate::operand::kind;
use dyn_value::{DynText, Fault, Outcome, Value};
use expr_tree::Node;
use meta_object::MetaObject;
use object_model::call_outcome;
use rule_model::{Claim, FunClaim};
use sqlite_items::Items;
use standard_binders::{CallInfo, FunTable};
use std::alloc::{AllocError, Global};

/// The node that calls the target. The one error is want of memory.
pub(crate) fn invoke_node(
    functions: &FunTable,
    info: &CallInfo,
    target: &MetaObject,
) -> Result<Node, AllocError>
    requires { IsTrue (is_callable functions.now.params target.now.value) }
    ensures { IfOk result (λ node.
        node ≡ spec.invoke_node functions.now.params info.now (kind_in target.now.shape) target.now.value) }
{
    match &target.value {
        Some(Value::Fun(number)) => {
            let parameters = functions.parameters(*number);
            let outcome = call_outcome(parameters, 0, info, Outcome::Call(*number))?;
            Ok(node_giving(outcome))
        }
        _ => Ok(Node::Throw(Fault::NotCallable(kind(target)))),
    }
}

/// The node that makes an object by the target. The one error is want of memory.
pub(crate) fn create_node(
    functions: &FunTable,
    info: &CallInfo,
    target: &MetaObject,
) -> Result<Node, AllocError>
    requires { IsTrue (is_callable functions.now.params target.now.value) }
    ensures { IfOk result (λ node.
        node ≡ spec.create_node functions.now.params info.now (kind_in target.now.shape) target.now.value) }
{
    match &target.value {
        Some(Value::Fun(number)) => {
            let parameters = functions.parameters(*number);
            let outcome = call_outcome(parameters, 1, info, Outcome::Make(*number))?;
            Ok(node_giving(outcome))
        }
        _ => Ok(Node::Throw(Fault::NotCreatable(kind(target)))),
    }
}

/// The node that gives an outcome whatever the operands.
fn node_giving(outcome: Outcome) -> Node
    ensures { result ≡ spec.node_giving outcome }
{
    match outcome {
        Outcome::Value(value) => Node::Const(value),
        Outcome::Call(number) => Node::Call(number),
        Outcome::Make(number) => Node::Make(number),
        Outcome::Fault(fault) => Node::Throw(fault),
    }
}

/// What a call or a creation rests on: the parameters of the function that the target is. The one error is want of
/// memory.
pub(crate) fn called_claim(
    alloc: Global,
    functions: &FunTable,
    target: &MetaObject,
) -> Result<Claim, AllocError>
    ensures { IfOk result (λ claim. claim ≡ spec.called_claim functions.now.params target.now.value) }
{
    let fun = match &target.value {
        Some(Value::Fun(number)) => Some(FunClaim {
            number: *number,
            params: copied(alloc, functions.parameters(*number))?,
        }),
        _ => None,
    };
    Ok(Claim { class: None, fun })
}

/// Equal names in the same order.
fn copied(alloc: Global, names: &[DynText]) -> Result<Items<DynText>, AllocError>
    ensures { IfOk result (λ copies. copies ≡ names.now) }
{
    let mut copies = Items::new(alloc);
    for name in names {
        copies.push(name.copy()?)?;
    }
    Ok(copies)
}
