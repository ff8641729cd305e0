//! Trees: their nodes in order, each after those that it names.
ghost use Rattle.std.specs.Prelude.{◌≡◌, ◌↔◌, ◌<◌, ◌≤◌, ◌++◌, ◌∷◌, [], ℕ, Err, IsTrue, IsOk, IfOk, MatchOption, OnOk, OnErr, encode_utf8_all, length};
ghost use Rattle.expr_tree.specs.declared.tree.TreeRefused.TheVariants.{TooManyNodes, BadParameter};
ghost use Rattle.expr_tree.specs.Trees.{IsTree, IsFirstUnfit, fits, root};
ghost use Rattle.expr_tree.specs.Texts.{tree_text};

use crate::node::Node;
use crate::printing::push_node;
use std::alloc::{AllocError, Global};
use std::marker::Model;

/// A tree: 1 to [`Tree::MOST_NODES`] nodes, the last of which is its root. Each node names only nodes before it.
///
/// Contracts see it as the list of its nodes.
#[derive(Debug, Drop)]
pub struct Tree {
    nodes: Vec<Node>,
}

impl Model for Tree {
    ghost use Rattle.std.specs.Prelude.{List};
    ghost use Rattle.expr_tree.specs.declared.node.Node.{Node as Part};
    ghost use Rattle.expr_tree.specs.Trees.{IsTree};

    ghost Value = { List Part };

    ghost view = { λ t. t.nodes.items };

    ghost invariant = { λ t. IsTree t.nodes.items };
}

/// Why nodes make no tree.
#[derive(Clone, Copy, Debug, PartialEq, Eq)]
pub enum TreeRefused {
    /// There are more than [`Tree::MOST_NODES`] nodes.
    TooManyNodes,
    /// The node of this number names an operand above [`Node::MOST_OPERAND`], or a node that does not stand before it.
    BadParameter(u32),
}

impl Tree {
    /// The most nodes of a tree.
    pub const MOST_NODES: usize = 64;

    /// The tree of these nodes. It takes no memory.
    ///
    /// - `TooManyNodes` exactly where there are more than [`Tree::MOST_NODES`] nodes.
    /// - `BadParameter(i)` exactly where there are not, and the node `i` is the first that names an operand above
    ///   [`Node::MOST_OPERAND`] or a node that does not stand before it. Of no node it is `BadParameter(0)`.
    pub fn make(nodes: Vec<Node>) -> Result<Tree, TreeRefused>
        ensures ok { IsOk result ↔ IsTree nodes.items }
        ensures tree { IfOk result (λ t. t ≡ nodes.items) }
        ensures too_many { (result ≡ Err TooManyNodes) ↔ (64 < length nodes.items) }
        ensures bad_parameter { (i : ℕ) →
            (result ≡ Err (BadParameter i)) ↔ ((length nodes.items ≤ 64) × IsFirstUnfit nodes.items i) }
    {
        if nodes.len() > Tree::MOST_NODES {
            return Err(TreeRefused::TooManyNodes);
        }
        match first_unfit(nodes.as_slice()) {
            Some(number) => Err(TreeRefused::BadParameter(number)),
            None => Ok(Tree { nodes }),
        }
    }

    /// The nodes of the tree, the root last.
    pub fn nodes(&self) -> &[Node]
        ensures nodes { result.now ≡ self.now }
        ensures tree { IsTree self.now }
    {
        self.nodes.as_slice()
    }

    /// The root.
    pub(crate) fn root(&self) -> &Node
        ensures root { result.now ≡ root self.now }
        ensures tree { IsTree self.now }
    {
        &self.nodes[self.nodes.len() - 1]
    }

    /// The tree of one node.
    pub(crate) fn single(alloc: Global, node: Node) -> Result<Tree, AllocError>
        requires fits { IsTrue (fits 0 node) }
        ensures { IfOk result (λ t. t ≡ node ∷ []) }
    {
        let mut nodes = Vec::new(alloc);
        nodes.push(node)?;
        Ok(Tree { nodes })
    }

    /// Appends the text of the tree, as UTF-8. Where memory is refused, `out` stays as it was.
    pub fn print_to(&self, out: &mut Vec<u8>) -> Result<(), AllocError>
        ensures appended { OnOk result (out.new.items ≡ out.old.items ++ encode_utf8_all (tree_text self.now)) }
        ensures refused { OnErr result (out.new.items ≡ out.old.items) }
    {
        let mut text = Vec::new(*out.allocator());
        let nodes = self.nodes();
        push_node(nodes, nodes.len() - 1, &mut text)?;
        out.extend_from_slice(text.as_slice())
    }
}

/// The number of the first node that may not have it; 0 where there is no node.
fn first_unfit(nodes: &[Node]) -> Option<u32>
    requires few { length nodes.now ≤ 64 }
    ensures { MatchOption result (IsTree nodes.now) (IsFirstUnfit nodes.now) }
{
    if nodes.is_empty() {
        return Some(0);
    }
    for (number, node) in nodes.iter().enumerate() {
        if !node.fits(number) {
            return Some(number as u32);
        }
    }
    None
}
