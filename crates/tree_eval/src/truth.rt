//! Trees as tests.
ghost use Rattle.std.specs.Prelude.{◌≡◌, ℕ, unwrap_or, slice_get, false};
ghost use Rattle.std.specs.Option.{option_copied};
ghost use Rattle.dyn_value.specs.Kinds.{kind_of, same_kind};
ghost use Rattle.expr_tree.specs.Meanings as spec;
ghost use Rattle.expr_tree.specs.Meanings.{passes, passes_there, node_test};

use dyn_value::{DynText, Kind, Value};
use expr_tree::{Node, Tree};
use sqlite_items::at;

/// Whether the tree is true as a test, of these operands and the class of this number: whether its last node is. A
/// node that is no test is false, but for the constant true. It takes no memory.
pub fn test(tree: &Tree, operands: &[Value], class: u128) -> bool
    ensures { result ≡ passes tree.now operands.now class }
{
    let nodes = tree.nodes();
    let mut truths = [false; Tree::MOST_NODES];
    for (number, node) in nodes.iter().enumerate() {
        truths[number] = is_true(node, operands, class, &truths[..number]);
    }
    truths[nodes.len() - 1]
}

/// Whether the node is true, where those before it have these truth values.
fn is_true(node: &Node, operands: &[Value], class: u128, before: &[bool]) -> bool
    ensures { result ≡ node_test operands.now class before.now node.now }
{
    match node {
        Node::Const(Value::Bool(truth)) => *truth,
        Node::IsKind(operand, kind) => has_kind(at(operands, *operand as usize), *kind),
        Node::IsFun(operand, number) => is_fun(at(operands, *operand as usize), *number),
        Node::IsKey(operand, text) => is_text(at(operands, *operand as usize), text),
        Node::LongKey(operand) => is_long(at(operands, *operand as usize)),
        Node::IsClass(number) => class == *number,
        Node::Both(left, right) => truth_of(before, *left) && truth_of(before, *right),
        _ => false,
    }
}

/// The truth value of the node of that number; false where there is none.
fn truth_of(before: &[bool], number: u8) -> bool
    ensures { result ≡ unwrap_or (slice_get before.now number) false }
{
    match at(before, number as usize) {
        Some(truth) => *truth,
        None => false,
    }
}

/// Whether the operand is there and has the kind.
fn has_kind(operand: Option<&Value>, kind: Kind) -> bool
    ensures { result ≡ passes_there (λ v. same_kind (kind_of v) kind) (option_copied operand.entry) }
{
    match operand {
        Some(value) => value.kind() == kind,
        None => false,
    }
}

/// Whether the operand is there and is that function.
fn is_fun(operand: Option<&Value>, number: u32) -> bool
    ensures { result ≡ passes_there (spec.is_fun number) (option_copied operand.entry) }
{
    match operand {
        Some(Value::Fun(function)) => *function == number,
        _ => false,
    }
}

/// Whether the operand is there and is that text.
fn is_text(operand: Option<&Value>, text: &DynText) -> bool
    ensures { result ≡ passes_there (spec.is_text text.now) (option_copied operand.entry) }
{
    match operand {
        Some(Value::Text(characters)) => characters.same(text),
        _ => false,
    }
}

/// Whether the operand is there and is a text of more than 64 bytes.
fn is_long(operand: Option<&Value>) -> bool
    ensures { result ≡ passes_there spec.is_long (option_copied operand.entry) }
{
    match operand {
        Some(Value::Text(characters)) => characters.as_str().len() > 64,
        _ => false,
    }
}
