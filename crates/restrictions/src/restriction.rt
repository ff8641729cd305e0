ghost use Rattle.std.specs.Prelude.{◌≡◌, ◌↔◌, IsTrue, IfOk};
ghost use Rattle.restrictions.specs.Sets.{is_same};
ghost use Rattle.restrictions.specs.TestTrees.{node_of};

use dyn_value::{DynText, Kind};
use expr_tree::Node;
use std::alloc::AllocError;

/// What must hold of one operand, or of the class. An operand is named by its number, from 0 for the target.
#[derive(Debug, Drop)]
pub enum Restriction {
    /// The operand has the kind.
    Kind(u8, Kind),
    /// The operand is the function of that number.
    Fun(u8, u32),
    /// The operand is that text.
    Key(u8, DynText),
    /// The operand is a text of more than 64 bytes.
    LongKey(u8),
    /// The class has that number.
    Class(u128),
}

impl Restriction {
    /// Whether the two restrictions have the same form and the same parts.
    pub fn same(&self, other: &Restriction) -> bool
        ensures answer { result ≡ is_same self.now other.now }
        ensures equal { IsTrue result ↔ (self.now ≡ other.now) }
    {
        match (self, other) {
            (Restriction::Kind(mine, kind), Restriction::Kind(theirs, other)) => {
                mine == theirs && kind == other
            }
            (Restriction::Fun(mine, number), Restriction::Fun(theirs, other)) => {
                mine == theirs && number == other
            }
            (Restriction::Key(mine, text), Restriction::Key(theirs, other)) => {
                mine == theirs && text.same(other)
            }
            (Restriction::LongKey(mine), Restriction::LongKey(theirs)) => mine == theirs,
            (Restriction::Class(mine), Restriction::Class(theirs)) => mine == theirs,
            _ => false,
        }
    }

    /// The test of the restriction. The one error is want of memory.
    pub(crate) fn node(&self) -> Result<Node, AllocError>
        ensures { IfOk result (λ n. n ≡ node_of self.now) }
    {
        Ok(match self {
            Restriction::Kind(operand, kind) => Node::IsKind(*operand, *kind),
            Restriction::Fun(operand, number) => Node::IsFun(*operand, *number),
            Restriction::Key(operand, text) => Node::IsKey(*operand, text.copy()?),
            Restriction::LongKey(operand) => Node::LongKey(*operand),
            Restriction::Class(number) => Node::IsClass(*number),
        })
    }
}
