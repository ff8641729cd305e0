ghost use Rattle.std.specs.Prelude.{[], IsTrue};
ghost use Rattle.expr_tree.specs.Meanings.{is_plain, IsThere};
ghost use Rattle.expr_tree.specs.Trees.{answers, fits};

mod prepared;

use crate::{eval_plain, test};
use dyn_value::{BinOp, DynText, Fault, Kind, Outcome, UnOp, Value};
use expr_tree::{Body, Node, Tree};
use std::alloc::Global;
use std::test::Fail;

fn text(alloc: Global, characters: &str) -> Result<DynText, Fail> {
    Ok(DynText::from_str(alloc, characters)?.ok_or("too long")?)
}

/// The operands of the tests below: 7, a text of one to four bytes a character, function 2, a text of 65 bytes and 3.
fn operands(alloc: Global) -> Result<[Value; 5], Fail> {
    let long = "0123456789012345678901234567890123456789012345678901234567890123x";
    Ok([
        Value::Int(7),
        Value::Text(text(alloc, "aé€𝄞")?),
        Value::Fun(2),
        Value::Text(text(alloc, long)?),
        Value::Int(3),
    ])
}

/// Whether the tree of these nodes is true of the operands, and of the class 4.
fn is_true(alloc: Global, nodes: Vec<Node>) -> Result<bool, Fail> {
    let tree = Tree::make(nodes)?;
    Ok(test(&tree, operands(alloc)?.as_slice(), 4))
}

/// Each node alone, as a test.
#[test]
fn tests_of_one_node(rt: HostRuntime) -> Result<(), Fail> {
    let alloc = rt.alloc();
    let tests = [
        (Node::Const(Value::Bool(true)), true),
        (Node::Const(Value::Bool(false)), false),
        (Node::Const(Value::Int(1)), false),
        (Node::IsKind(0, Kind::Int), true),
        (Node::IsKind(1, Kind::Int), false),
        (Node::IsKind(5, Kind::Int), false),
        (Node::IsFun(2, 2), true),
        (Node::IsFun(2, 1), false),
        (Node::IsFun(0, 7), false),
        (Node::IsKey(1, text(alloc, "aé€𝄞")?), true),
        (Node::IsKey(1, text(alloc, "aé€")?), false),
        (Node::LongKey(3), true),
        (Node::LongKey(1), false),
        (Node::LongKey(0), false),
        (Node::IsClass(4), true),
        (Node::IsClass(0), false),
        (Node::Param(0), false),
        (Node::Update, false),
    ];
    for (node, want) in tests {
        let mut nodes = Vec::new(alloc);
        nodes.push(node)?;
        assert!(rt; is_true(alloc, nodes)? == want);
    }
    Ok(())
}

#[test]
fn tests_of_two(rt: HostRuntime) -> Result<(), Fail> {
    let alloc = rt.alloc();
    for (class, want) in [(4, true), (5, false)] {
        let nodes = vec![in alloc;
            Node::IsKind(0, Kind::Int),
            Node::IsClass(class),
            Node::Both(0, 1),
        ]?;
        assert!(rt; is_true(alloc, nodes)? == want);
    }
    Ok(())
}

/// What is printed of the answer of the body of this node.
fn answered(alloc: Global, node: Node, operands: &[Value]) -> Result<Vec<u8>, Fail>
    requires answers { IsTrue (answers node) }
    requires fits { IsTrue (fits 0 node) }
    requires there { IsThere operands.now [] node }
    requires plain { IsTrue (is_plain node) }
{
    let body = Body::single(alloc, node)?;
    printed(alloc, &eval_plain(alloc, &body, operands)?)
}

/// What is printed of an outcome.
fn printed(alloc: Global, outcome: &Outcome) -> Result<Vec<u8>, Fail> {
    let mut out = Vec::new(alloc);
    match outcome {
        Outcome::Value(value) => value.quote_to(&mut out)?,
        Outcome::Fault(fault) => fault.print_to(&mut out)?,
        Outcome::Call(function) => out.extend_from_slice(format!(in alloc;
            "call {function}"
        )?.as_bytes())?,
        Outcome::Make(function) => out.extend_from_slice(format!(in alloc;
            "make {function}"
        )?.as_bytes())?,
    }
    Ok(out)
}

#[test]
fn answers_of_operators(rt: HostRuntime) -> Result<(), Fail> {
    let alloc = rt.alloc();
    let operands = operands(alloc)?;
    let operands = operands.as_slice();
    assert!(rt;
        answered(alloc, Node::Unary(UnOp::Negate, 0), operands)?.as_slice() == b"-7".as_slice()
    );
    assert!(rt;
        answered(alloc, Node::Unary(UnOp::Not, 1), operands)?.as_slice() == b"NoOperator".as_slice()
    );
    assert!(rt;
        answered(alloc, Node::Binary(BinOp::Subtract, 0, 4), operands)?.as_slice()
            == b"4".as_slice()
    );
    assert!(rt;
        answered(alloc, Node::Convert(Kind::Text, 0), operands)?.as_slice() == b"\"7\"".as_slice()
    );
    assert!(rt;
        answered(alloc, Node::Convert(Kind::Int, 1), operands)?.as_slice()
            == b"NoConvert".as_slice()
    );
    Ok(())
}

#[test]
fn answers_of_texts(rt: HostRuntime) -> Result<(), Fail> {
    let alloc = rt.alloc();
    let operands = operands(alloc)?;
    let operands = operands.as_slice();
    assert!(rt; answered(alloc, Node::Length(1), operands)?.as_slice() == b"4".as_slice());
    assert!(rt; answered(alloc, Node::Length(0), operands)?.as_slice() == b"NoOperator".as_slice());
    assert!(rt; answered(alloc, Node::CharAt(1, 4), operands)?.as_slice() == "\"𝄞\"".as_bytes());
    assert!(rt; answered(alloc, Node::CharAt(1, 0), operands)?.as_slice() == b"NoIndex".as_slice());
    assert!(rt; answered(alloc, Node::CharAt(1, 1), operands)?.as_slice() == b"NoIndex".as_slice());
    assert!(rt;
        answered(alloc, Node::CharAt(0, 1), operands)?.as_slice() == b"NoOperator".as_slice()
    );
    Ok(())
}

#[test]
fn answers_without_operators(rt: HostRuntime) -> Result<(), Fail> {
    let alloc = rt.alloc();
    let operands = operands(alloc)?;
    let operands = operands.as_slice();
    assert!(rt; answered(alloc, Node::Param(2), operands)?.as_slice() == b"fn#2".as_slice());
    assert!(rt;
        answered(alloc, Node::Const(Value::Nil), operands)?.as_slice() == b"nil".as_slice()
    );
    assert!(rt; answered(alloc, Node::Call(2), operands)?.as_slice() == b"call 2".as_slice());
    assert!(rt; answered(alloc, Node::Make(0), operands)?.as_slice() == b"make 0".as_slice());
    assert!(rt;
        answered(alloc, Node::Throw(Fault::NoIndex), operands)?.as_slice() == b"NoIndex".as_slice()
    );
    Ok(())
}
