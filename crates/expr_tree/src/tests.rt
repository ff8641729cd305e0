//! What trees print, which nodes make a tree, which trees make a body, and that both may be shared by threads; expected
//! values are worked out by hand.
use crate::{Body, Node, Tree, TreeRefused};
use dyn_value::{BinOp, DynText, Fault, Kind, UnOp, Value};
use std::alloc::Global;
use std::test::Fail;
use std::thread;

fn text(alloc: Global, characters: &str) -> Result<DynText, Fail> {
    Ok(DynText::from_str(alloc, characters)?.ok_or("too long")?)
}

fn tree(nodes: Vec<Node>) -> Result<Tree, Fail> {
    Ok(Tree::make(nodes).ok().ok_or("no tree")?)
}

fn body(tree: Tree) -> Result<Body, Fail> {
    Ok(Body::make(tree).ok().ok_or("no body")?)
}

fn printed(alloc: Global, tree: &Tree) -> Result<Vec<u8>, Fail> {
    let mut out = Vec::new(alloc);
    tree.print_to(&mut out)?;
    Ok(out)
}

/// So many nodes `class 0`.
fn classes(alloc: Global, count: u32) -> Result<Vec<Node>, Fail> {
    let mut nodes = Vec::new(alloc);
    for _ in 0..count {
        nodes.push(Node::IsClass(0))?;
    }
    Ok(nodes)
}

#[test]
fn nodes_that_make_no_tree(rt: HostRuntime) -> Result<(), Fail> {
    let alloc = rt.alloc();
    assert!(rt; Tree::make(classes(alloc, 64)?).is_ok());
    let refused = vec![in alloc;
        (classes(alloc, 65)?, TreeRefused::TooManyNodes),
        (classes(alloc, 0)?, TreeRefused::BadParameter(0)),
        (
            vec![in alloc; Node::Both(0, 0)]?,
            TreeRefused::BadParameter(0)
        ),
        (
            vec![in alloc; Node::IsClass(0), Node::Both(0, 1)]?,
            TreeRefused::BadParameter(1)
        ),
        (
            vec![in alloc; Node::Update, Node::Update, Node::If(0, 1, 2)]?,
            TreeRefused::BadParameter(2)
        ),
        (
            vec![in alloc; Node::Param(16), Node::Param(17)]?,
            TreeRefused::BadParameter(1)
        ),
        (
            vec![in alloc; Node::Param(0), Node::CharAt(0, 17), Node::Both(2, 2)]?,
            TreeRefused::BadParameter(1)
        ),
    ]?;
    for (nodes, want) in refused {
        assert!(rt; Tree::make(nodes).err() == Some(want), "{want:?}");
    }
    Ok(())
}

/// Tests, each with its text.
fn tests(alloc: Global) -> Result<Vec<(Node, &'static str)>, Fail> {
    Ok(vec![in alloc;
        (Node::IsKind(0, Kind::Int), "(kind 0 Int)"),
        (Node::IsFun(0, 2), "(fun 0 2)"),
        (Node::IsKey(1, text(alloc, "k")?), "(key 1 \"k\")"),
        (
            Node::IsKey(16, text(alloc, "é\"\n")?),
            "(key 16 \"é\\\"\\n\")"
        ),
        (Node::LongKey(1), "(long 1)"),
        (Node::IsClass(4), "(class 4)"),
        (
            Node::IsClass(u128::MAX),
            "(class 340282366920938463463374607431768211455)",
        ),
        (Node::Update, "update"),
    ]?)
}

/// Answers, each with its text.
fn answers(alloc: Global) -> Result<Vec<(Node, &'static str)>, Fail> {
    Ok(vec![in alloc;
        (Node::Param(1), "(param 1)"),
        (Node::Const(Value::Text(text(alloc, "k")?)), "(const \"k\")"),
        (Node::Const(Value::Bool(true)), "(const true)"),
        (Node::Const(Value::Int(-7)), "(const -7)"),
        (Node::Unary(UnOp::Negate, 0), "(Negate 0)"),
        (Node::Unary(UnOp::IsTrue, 0), "(IsTrue 0)"),
        (Node::Binary(BinOp::Add, 0, 1), "(Add 0 1)"),
        (
            Node::Binary(BinOp::GreaterThanOrEqual, 1, 0),
            "(GreaterThanOrEqual 1 0)",
        ),
        (Node::Convert(Kind::Int, 0), "(convert Int 0)"),
        (Node::Length(0), "(length 0)"),
        (Node::CharAt(0, 1), "(char 0 1)"),
        (Node::Read(0), "(read 0)"),
        (Node::Write(0, 1), "(write 0 1)"),
        (Node::Append(1, 1), "(append 1 1)"),
        (Node::Remove(0, 2), "(remove 0 2)"),
        (Node::Call(0), "(call 0)"),
        (Node::Make(0), "(make 0)"),
        (Node::Throw(Fault::NoIndex), "(throw NoIndex)"),
        (
            Node::Throw(Fault::WrongCount(2, 1)),
            "(throw WrongCount 2 1)"
        ),
    ]?)
}

#[test]
fn texts_of_tests(rt: HostRuntime) -> Result<(), Fail> {
    let alloc = rt.alloc();
    for (node, want) in tests(alloc)? {
        let tree = tree(vec![in alloc; node]?)?;
        assert!(rt;
            printed(alloc, &tree)?.as_slice() == want.as_bytes(),
            "{want}"
        );
        assert!(rt; Body::make(tree).is_err(), "{want}");
    }
    Ok(())
}

#[test]
fn texts_of_answers(rt: HostRuntime) -> Result<(), Fail> {
    let alloc = rt.alloc();
    for (node, want) in answers(alloc)? {
        let body = body(tree(vec![in alloc; node]?)?)?;
        assert!(rt;
            printed(alloc, body.tree())?.as_slice() == want.as_bytes(),
            "{want}"
        );
    }
    Ok(())
}

/// Trees of several nodes, each with its text.
fn trees(alloc: Global) -> Result<Vec<(Vec<Node>, &'static str)>, Fail> {
    Ok(vec![in alloc;
        (
            vec![in alloc;
                Node::IsKind(0, Kind::Obj),
                Node::IsClass(0),
                Node::Both(0, 1),
                Node::Append(1, 1),
                Node::Update,
                Node::If(2, 3, 4),
            ]?,
            "(if (and (kind 0 Obj) (class 0)) (append 1 1) update)",
        ),
        (
            vec![in alloc;
                Node::IsKind(0, Kind::Obj),
                Node::IsClass(3),
                Node::Both(0, 1),
                Node::LongKey(1),
                Node::Both(2, 3),
            ]?,
            "(and (and (kind 0 Obj) (class 3)) (long 1))",
        ),
        (
            vec![in alloc; Node::Update, Node::Both(0, 0), Node::Both(1, 1)]?,
            "(and (and update update) (and update update))",
        ),
    ]?)
}

#[test]
fn texts_of_trees(rt: HostRuntime) -> Result<(), Fail> {
    let alloc = rt.alloc();
    for (nodes, want) in trees(alloc)? {
        let tree = tree(nodes)?;
        assert!(rt;
            printed(alloc, &tree)?.as_slice() == want.as_bytes(),
            "{want}"
        );
    }
    Ok(())
}

/// Nodes that the root does not name cost nothing, however long their texts would be.
#[test]
fn only_the_root_is_printed(rt: HostRuntime) -> Result<(), Fail> {
    let alloc = rt.alloc();
    let mut nodes = vec![in alloc; Node::IsClass(0)]?;
    for last in 0..62u8 {
        nodes.push(Node::Both(last, last))?;
    }
    nodes.push(Node::Param(0))?;
    let body = body(tree(nodes)?)?;
    assert!(rt; body.tree().nodes().len() == 64);
    assert!(rt; matches!(body.root(), Node::Param(0)));
    assert!(rt; printed(alloc, body.tree())?.as_slice() == "(param 0)".as_bytes());
    Ok(())
}

#[test]
fn a_text_is_appended(rt: HostRuntime) -> Result<(), Fail> {
    let alloc = rt.alloc();
    let body = Body::single(alloc, Node::Call(3))?;
    assert!(rt; matches!(body.root(), Node::Call(3)));
    let mut out = vec![in alloc; b'>']?;
    body.tree().print_to(&mut out)?;
    assert!(rt; out.as_slice() == ">(call 3)".as_bytes());
    Ok(())
}

/// A tree and a body are read by two threads at once, and each moves into one.
#[test]
fn trees_between_threads(rt: HostRuntime) -> Result<(), Fail> {
    let alloc = rt.alloc();
    let test = tree(vec![in alloc; Node::IsKey(1, text(alloc, "k")?)]?)?;
    let answer = Body::single(alloc, Node::Throw(Fault::NoMember(text(alloc, "k")?)))?;
    let (one, other) = thread::join(
        &rt,
        || test.nodes().len() + answer.tree().nodes().len(),
        || test.nodes().len() + answer.tree().nodes().len(),
    );
    assert_eq!(rt; (one, other), (2, 2));
    let (moved, _) = thread::join(&rt, move || test.nodes().len(), || ());
    assert_eq!(rt; moved, 1);
    let (moved, _) = thread::join(&rt, move || answer.tree().nodes().len(), || ());
    assert_eq!(rt; moved, 1);
    Ok(())
}
