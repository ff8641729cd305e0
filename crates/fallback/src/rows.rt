//! What the language answers of its own where it looks at no object: a row for each operation.
ghost use Rattle.std.specs.Prelude.{◌≡◌, ◌∷◌, [], IfOk, codes, length, map};
ghost use Rattle.std.specs.Str.{bytes_eq};
ghost use Rattle.standard_binders.specs.Binders.{operand_count_of};
ghost use Rattle.meta_object.specs.Bindings.{HasTests};
ghost use Rattle.meta_object.specs.Metas.{known_in};
ghost use Rattle.fallback.specs.Own as spec;
ghost use Rattle.fallback.specs.Own.{AreKnown};

use crate::call_rows::{called_claim, create_node, invoke_node};
use crate::operand::{kind, operand};
use crate::operator_rows::{binary_node, convert_node, unary_node};
use crate::row_tests::row_tests;
use dyn_value::{DynText, Fault, Kind};
use expr_tree::{Body, Node};
use meta_object::{Bound, MetaObject};
use rule_model::Claim;
use standard_binders::{Binder, FunTable};
use std::alloc::{AllocError, Global};

/// The bound of an operation that looks at no object. The one error is want of memory.
pub(crate) fn row_bound(
    alloc: Global,
    functions: &FunTable,
    binder: &Binder,
    metas: &[MetaObject],
) -> Result<Bound, AllocError>
    requires count { length metas.now ≡ operand_count_of binder.now }
    requires known { AreKnown functions.now.params binder.now (map known_in metas.now) }
    ensures tests { IfOk result (HasTests binder.now metas.now) }
    ensures body { IfOk result (λ bound.
        bound.body ≡ spec.own_node functions.now.params binder.now (map known_in metas.now) ∷ []) }
    ensures claim { IfOk result (λ bound.
        bound.claim ≡ spec.own_claim functions.now.params (map known_in metas.now) binder.now) }
{
    let node = row_node(functions, binder, metas)?;
    Ok(Bound {
        restrictions: row_tests(alloc, binder, metas)?,
        body: Body::single(alloc, node)?,
        claim: row_claim(alloc, functions, binder, metas)?,
    })
}

/// The node of an operation that looks at no object. The one error is want of memory.
fn row_node(functions: &FunTable, binder: &Binder, metas: &[MetaObject]) -> Result<Node, AllocError>
    requires count { length metas.now ≡ operand_count_of binder.now }
    requires known { AreKnown functions.now.params binder.now (map known_in metas.now) }
    ensures { IfOk result (λ node.
        node ≡ spec.own_node functions.now.params binder.now (map known_in metas.now)) }
{
    let target = operand(metas, 0);
    match binder {
        Binder::GetMember { name, .. } => member_node(name, kind(target)),
        Binder::SetMember { name, .. }
        | Binder::DeleteMember { name, .. }
        | Binder::InvokeMember { name, .. } => Ok(Node::Throw(Fault::NoMember(name.copy()?))),
        Binder::GetIndex => Ok(index_node(kind(target), kind(operand(metas, 1)))),
        Binder::SetIndex | Binder::DeleteIndex => {
            Ok(Node::Throw(Fault::NotIndexable(kind(target))))
        }
        Binder::Invoke { info } => invoke_node(functions, info, target),
        Binder::CreateInstance { info } => create_node(functions, info, target),
        Binder::Convert { to } => Ok(convert_node(kind(target), *to)),
        Binder::UnaryOperation { op } => Ok(unary_node(*op, kind(target))),
        Binder::BinaryOperation { op } => {
            Ok(binary_node(*op, kind(target), kind(operand(metas, 1))))
        }
    }
}

/// The node that reads a member of a value of this kind, which is no object. The one error is want of memory.
fn member_node(name: &DynText, kind: Kind) -> Result<Node, AllocError>
    ensures { IfOk result (λ node. node ≡ spec.member_node name.now kind) }
{
    match kind {
        Kind::Text if is_length(name) => Ok(Node::Length(0)),
        _ => Ok(Node::Throw(Fault::NoMember(name.copy()?))),
    }
}

/// Whether a name is that of the one member of texts.
fn is_length(name: &DynText) -> bool
    ensures { result ≡ bytes_eq name.now (codes "length") }
{
    name.as_str() == "length"
}

/// The node that reads a value of this kind, which is no object, at a key of the other.
fn index_node(kind: Kind, key: Kind) -> Node
    ensures { result ≡ spec.index_node kind key }
{
    match (kind, key) {
        (Kind::Text, Kind::Int) => Node::CharAt(0, 1),
        (Kind::Text, _) => Node::Throw(Fault::NoIndex),
        _ => Node::Throw(Fault::NotIndexable(kind)),
    }
}

/// What the answer rests on. The one error is want of memory.
fn row_claim(
    alloc: Global,
    functions: &FunTable,
    binder: &Binder,
    metas: &[MetaObject],
) -> Result<Claim, AllocError>
    requires { length metas.now ≡ operand_count_of binder.now }
    ensures { IfOk result (λ claim.
        claim ≡ spec.own_claim functions.now.params (map known_in metas.now) binder.now) }
{
    match binder {
        Binder::Invoke { .. } | Binder::CreateInstance { .. } => {
            called_claim(alloc, functions, operand(metas, 0))
        }
        _ => Ok(Claim {
            class: None,
            fun: None,
        }),
    }
}
