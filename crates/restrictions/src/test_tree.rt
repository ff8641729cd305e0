//! The test that all restrictions of a set hold.
ghost use Rattle.std.specs.Prelude.{◌≡◌, ◌<◌, ℕ, List, length, IfOk, OnOk};
ghost use Rattle.dyn_value.specs.declared.value.Value.{Value};
ghost use Rattle.expr_tree.specs.Meanings.{passes};
ghost use Rattle.restrictions.specs.Meanings.{all_hold};
ghost use Rattle.restrictions.specs.Sets.{IsSet};
ghost use Rattle.restrictions.specs.TestTrees.{with_test, tree_of};

use crate::restriction::Restriction;
use crate::set::Restrictions;
use dyn_value::Value;
use expr_tree::{Node, Tree};
use std::alloc::{AllocError, Global};

impl Restrictions {
    /// The test that all restrictions hold, nested to the left; of no restriction the constant true. The one error
    /// is want of memory.
    pub fn to_tree(&self, alloc: Global) -> Result<Tree, AllocError>
        ensures tree { IfOk result (λ t. t ≡ tree_of self.now) }
        ensures meaning { IfOk result (λ t. (ops : List Value) (class : ℕ) →
            passes t ops class ≡ all_hold self.now ops class) }
    {
        let nodes = self.test_nodes(alloc)?;
        match Tree::make(nodes) {
            Ok(tree) => Ok(tree),
            Err(_) => unreachable!(),
        }
    }

    /// The nodes of that tree.
    fn test_nodes(&self, alloc: Global) -> Result<Vec<Node>, AllocError>
        ensures nodes { IfOk result (λ ns. ns.items ≡ tree_of self.now) }
        ensures set { IsSet self.now }
    {
        let mut nodes = Vec::new(alloc);
        for restriction in self.items() {
            push_test(&mut nodes, restriction)?;
        }
        if nodes.is_empty() {
            nodes.push(Node::Const(Value::Bool(true)))?;
        }
        Ok(nodes)
    }
}

/// Puts the restriction's test behind the nodes, and behind it the root that both it and the tree before it hold.
fn push_test(nodes: &mut Vec<Node>, restriction: &Restriction) -> Result<(), AllocError>
    requires { length nodes.old.items < 256 }
    ensures { OnOk result (nodes.new.items ≡ with_test nodes.old.items restriction.now) }
{
    let node = restriction.node()?;
    let place = nodes.len();
    nodes.push(node)?;
    if place > 0 {
        nodes.push(Node::Both((place - 1) as u8, place as u8))?;
    }
    Ok(())
}
