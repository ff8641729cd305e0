//! The texts of nodes: a word and its parts, in parentheses.
ghost use Rattle.std.specs.Prelude.{◌≡◌, ◌++◌, ◌∷◌, [], ◌<◌, List, ℕ, length, IsTrue, OnOk, encode_utf8_all, codes};
ghost use Rattle.std.specs.Char.{is_ascii};
ghost use Rattle.std.specs.Fmt.{decimal};
ghost use Rattle.std.specs.List.{list_all};
ghost use Rattle.dyn_value.specs.Texts.{quoted, quoted_text, kind_name, fault_text};
ghost use Rattle.expr_tree.specs.InOrder.{in_order};
ghost use Rattle.expr_tree.specs.Texts.{node_text, text_in, form};
ghost use Rattle.expr_tree.specs.Trees.{IsTree, children_of};

use crate::node::Node;
use dyn_value::{DynText, Fault, Kind, Value};
use std::alloc::AllocError;

/// Appends the text of the node of this number. The nodes that it names stand before it, so this ends.
pub(crate) fn push_node(nodes: &[Node], number: usize, out: &mut Vec<u8>) -> Result<(), AllocError>
    requires tree { IsTree nodes.now }
    requires number { number < length nodes.now }
    ensures { OnOk result (out.new.items
        ≡ out.old.items ++ encode_utf8_all (text_in (in_order node_text [] nodes.now) number)) }
{
    match &nodes[number] {
        Node::Both(left, right) => {
            push_word(out, "(and ")?;
            push_node(nodes, *left as usize, out)?;
            push_word(out, " ")?;
            push_node(nodes, *right as usize, out)?;
            push_word(out, ")")
        }
        Node::If(test, then, other) => {
            push_word(out, "(if ")?;
            push_node(nodes, *test as usize, out)?;
            push_word(out, " ")?;
            push_node(nodes, *then as usize, out)?;
            push_word(out, " ")?;
            push_node(nodes, *other as usize, out)?;
            push_word(out, ")")
        }
        leaf => push_leaf(leaf, out),
    }
}

/// Appends the text of a node that names no other.
fn push_leaf(node: &Node, out: &mut Vec<u8>) -> Result<(), AllocError>
    requires leaf { children_of node.now ≡ [] }
    ensures { (before : List (List ℕ)) →
        OnOk result (out.new.items ≡ out.old.items ++ encode_utf8_all (node_text before node.now)) }
{
    match node {
        Node::Param(operand) => push_one(out, "param", *operand as u128),
        Node::Const(value) => push_value(out, value),
        Node::IsKind(operand, kind) => push_is_kind(out, *operand, *kind),
        Node::IsFun(operand, function) => {
            push_two(out, "fun", *operand as u128, *function as u128)
        }
        Node::IsKey(operand, key) => push_is_key(out, *operand, key),
        Node::LongKey(operand) => push_one(out, "long", *operand as u128),
        Node::IsClass(class) => push_one(out, "class", *class),
        Node::Both(_, _) | Node::If(_, _, _) => unreachable!(),
        Node::Unary(op, operand) => push_one(out, op.name(), *operand as u128),
        Node::Binary(op, left, right) => { push_two(out, op.name(), *left as u128, *right as u128) }
        Node::Convert(kind, operand) => push_convert(out, *kind, *operand),
        Node::Length(operand) => push_one(out, "length", *operand as u128),
        Node::CharAt(text, place) => push_two(out, "char", *text as u128, *place as u128),
        Node::Read(place) => push_one(out, "read", *place as u128),
        Node::Write(place, operand) => push_two(out, "write", *place as u128, *operand as u128),
        Node::Append(class, operand) => push_two(out, "append", *class, *operand as u128),
        Node::Remove(place, class) => push_two(out, "remove", *place as u128, *class),
        Node::Call(function) => push_one(out, "call", *function as u128),
        Node::Make(function) => push_one(out, "make", *function as u128),
        Node::Throw(fault) => push_throw(out, fault),
        Node::Update => push_word(out, "update"),
    }
}

/// A word and a number, in parentheses.
fn push_one(out: &mut Vec<u8>, word: &str, number: u128) -> Result<(), AllocError>
    requires { IsTrue (list_all is_ascii word.now) }
    ensures { OnOk result (out.new.items
        ≡ out.old.items ++ encode_utf8_all (form word.now (decimal number ∷ []))) }
{
    push_word(out, "(")?;
    push_word(out, word)?;
    push_number(out, number)?;
    push_word(out, ")")
}

/// A word and two numbers, in parentheses.
fn push_two(out: &mut Vec<u8>, word: &str, first: u128, second: u128) -> Result<(), AllocError>
    requires { IsTrue (list_all is_ascii word.now) }
    ensures { OnOk result (out.new.items
        ≡ out.old.items ++ encode_utf8_all (form word.now (decimal first ∷ decimal second ∷ []))) }
{
    push_word(out, "(")?;
    push_word(out, word)?;
    push_number(out, first)?;
    push_number(out, second)?;
    push_word(out, ")")
}

fn push_value(out: &mut Vec<u8>, value: &Value) -> Result<(), AllocError>
    ensures { OnOk result (out.new.items
        ≡ out.old.items ++ encode_utf8_all (form (codes "const") (quoted value.now ∷ []))) }
{
    push_word(out, "(const ")?;
    value.quote_to(out)?;
    push_word(out, ")")
}

fn push_is_kind(out: &mut Vec<u8>, operand: u8, kind: Kind) -> Result<(), AllocError>
    ensures { OnOk result (out.new.items
        ≡ out.old.items ++ encode_utf8_all (form (codes "kind") (decimal operand ∷ kind_name kind ∷ []))) }
{
    push_word(out, "(kind")?;
    push_number(out, operand as u128)?;
    push_word(out, " ")?;
    push_word(out, kind.name())?;
    push_word(out, ")")
}

fn push_is_key(out: &mut Vec<u8>, operand: u8, key: &DynText) -> Result<(), AllocError>
    ensures { OnOk result (out.new.items
        ≡ out.old.items ++ encode_utf8_all (form (codes "key") (decimal operand ∷ quoted_text key.now ∷ []))) }
{
    push_word(out, "(key")?;
    push_number(out, operand as u128)?;
    push_word(out, " ")?;
    key.quote_to(out)?;
    push_word(out, ")")
}

fn push_convert(out: &mut Vec<u8>, kind: Kind, operand: u8) -> Result<(), AllocError>
    ensures { OnOk result (out.new.items
        ≡ out.old.items ++ encode_utf8_all (form (codes "convert") (kind_name kind ∷ decimal operand ∷ []))) }
{
    push_word(out, "(convert ")?;
    push_word(out, kind.name())?;
    push_number(out, operand as u128)?;
    push_word(out, ")")
}

fn push_throw(out: &mut Vec<u8>, fault: &Fault) -> Result<(), AllocError>
    ensures { OnOk result (out.new.items
        ≡ out.old.items ++ encode_utf8_all (form (codes "throw") (fault_text fault.now ∷ []))) }
{
    push_word(out, "(throw ")?;
    fault.print_to(out)?;
    push_word(out, ")")
}

/// A space and a number.
fn push_number(out: &mut Vec<u8>, number: u128) -> Result<(), AllocError>
    ensures { OnOk result (out.new.items ≡ out.old.items ++ encode_utf8_all (32 ∷ decimal number)) }
{
    let text = format!(in *out.allocator(); " {number}")?;
    out.extend_from_slice(text.as_bytes())
}

fn push_word(out: &mut Vec<u8>, word: &str) -> Result<(), AllocError>
    requires { IsTrue (list_all is_ascii word.now) }
    ensures { OnOk result (out.new.items ≡ out.old.items ++ encode_utf8_all word.now) }
{
    out.extend_from_slice(word.as_bytes())
}
