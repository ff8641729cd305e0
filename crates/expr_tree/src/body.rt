//! Bodies: the trees that give an answer.
ghost use Rattle.std.specs.Prelude.{◌≡◌, ◌↔◌, [], ◌∷◌, IsOk, IsTrue, IfOk, IfErr};
ghost use Rattle.expr_tree.specs.Trees.{IsBody, answers, fits, root};

use crate::node::Node;
use crate::tree::Tree;
use std::alloc::{AllocError, Global};
use std::marker::Model;

/// A tree whose root gives an answer: it is no test, and neither `If` nor `Update`.
///
/// Contracts see it as the list of its nodes.
#[derive(Debug, Drop)]
pub struct Body {
    tree: Tree,
}

impl Model for Body {
    ghost use Rattle.std.specs.Prelude.{List};
    ghost use Rattle.expr_tree.specs.declared.node.Node.{Node as Part};
    ghost use Rattle.expr_tree.specs.Trees.{IsBody};

    ghost Value = { List Part };

    ghost view = { λ b. b.tree };

    ghost invariant = { λ b. IsBody b.tree };
}

impl Body {
    /// The body of this tree. The tree comes back exactly where its root gives no answer: where it is `IsKind`, `IsFun`,
    /// `IsKey`, `LongKey`, `IsClass`, `Both`, `If` or `Update`. It takes no memory.
    pub fn make(tree: Tree) -> Result<Body, Tree>
        ensures ok { IsOk result ↔ IsTrue (answers (root tree)) }
        ensures body { IfOk result (λ b. b ≡ tree) }
        ensures refused { IfErr result (λ t. t ≡ tree) }
    {
        if tree.root().answers() {
            Ok(Body { tree })
        } else {
            Err(tree)
        }
    }

    /// The body of one node.
    pub fn single(alloc: Global, node: Node) -> Result<Body, AllocError>
        requires answers { IsTrue (answers node) }
        requires fits { IsTrue (fits 0 node) }
        ensures { IfOk result (λ b. b ≡ node ∷ []) }
    {
        let tree = Tree::single(alloc, node)?;
        Ok(Body { tree })
    }

    /// The tree of the body.
    pub fn tree(&self) -> &Tree
        ensures tree { result.now ≡ self.now }
        ensures body { IsBody self.now }
    {
        &self.tree
    }

    /// The root of the body, which gives its answer.
    pub fn root(&self) -> &Node
        ensures root { result.now ≡ root self.now }
        ensures body { IsBody self.now }
    {
        self.tree.root()
    }
}
