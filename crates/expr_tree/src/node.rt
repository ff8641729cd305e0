//! The nodes of trees.
ghost use Rattle.std.specs.Prelude.{◌≡◌};
ghost use Rattle.expr_tree.specs.Trees.{fits, answers};

use dyn_value::{BinOp, DynText, Fault, Kind, UnOp, Value};

/// A node of a tree. An operand is named by its number, from 0 for the target to [`Node::MOST_OPERAND`]; a node by its
/// number in the tree, which is below that of the node that names it; a place by its number in the list of a state's values.
#[derive(Debug, Drop)]
pub enum Node {
    /// The operand.
    Param(u8),
    /// The value.
    Const(Value),
    /// Whether the operand has the kind.
    IsKind(u8, Kind),
    /// Whether the operand is the function of that number.
    IsFun(u8, u32),
    /// Whether the operand is that text.
    IsKey(u8, DynText),
    /// Whether the operand is a text of more than 64 bytes.
    LongKey(u8),
    /// Whether the state's class has that number.
    IsClass(u128),
    /// Whether both earlier nodes are true.
    Both(u8, u8),
    /// The second earlier node where the first is true, and else the third.
    If(u8, u8, u8),
    /// The operator on the operand.
    Unary(UnOp, u8),
    /// The operator on the two operands.
    Binary(BinOp, u8, u8),
    /// The operand converted to the kind.
    Convert(Kind, u8),
    /// The number of characters of the operand.
    Length(u8),
    /// The character of the first operand at the place that the second one names.
    CharAt(u8, u8),
    /// The value at the place.
    Read(u16),
    /// Replaces the value at the place by the operand.
    Write(u16, u8),
    /// Appends the operand; the state's class becomes that of the number.
    Append(u128, u8),
    /// Removes the value at the place; the state's class becomes that of the number.
    Remove(u16, u128),
    /// The call of the function of that number.
    Call(u32),
    /// The making of an object by the function of that number.
    Make(u32),
    /// The fault.
    Throw(Fault),
    /// No answer: the rule does not serve, and the site is bound anew.
    Update,
}

impl Node {
    /// The greatest number of an operand.
    pub const MOST_OPERAND: u8 = 16;

    /// Whether the node may stand at this number of a tree: each operand that it names is at most
    /// [`Node::MOST_OPERAND`], and each node that it names stands before it.
    pub(crate) fn fits(&self, number: usize) -> bool
        ensures { result ≡ fits number self.now }
    {
        match self {
            Node::Param(operand)
            | Node::IsKind(operand, _)
            | Node::IsFun(operand, _)
            | Node::IsKey(operand, _)
            | Node::LongKey(operand)
            | Node::Unary(_, operand)
            | Node::Convert(_, operand)
            | Node::Length(operand)
            | Node::Write(_, operand)
            | Node::Append(_, operand) => *operand <= Node::MOST_OPERAND,
            Node::Binary(_, left, right) | Node::CharAt(left, right) => {
                *left <= Node::MOST_OPERAND && *right <= Node::MOST_OPERAND
            }
            Node::Both(left, right) => (*left as usize) < number && (*right as usize) < number,
            Node::If(test, then, other) => {
                (*test as usize) < number && (*then as usize) < number && (*other as usize) < number
            }
            Node::Const(_)
            | Node::IsClass(_)
            | Node::Read(_)
            | Node::Remove(_, _)
            | Node::Call(_)
            | Node::Make(_)
            | Node::Throw(_)
            | Node::Update => true,
        }
    }

    /// Whether a body may end in this node: it is none of the tests `IsKind`, `IsFun`, `IsKey`, `LongKey`, `IsClass` and
    /// `Both`, and neither `If` nor `Update`.
    pub fn answers(&self) -> bool
        ensures { result ≡ answers self.now }
    {
        !matches!(
            self,
            Node::IsKind(_, _)
                | Node::IsFun(_, _)
                | Node::IsKey(_, _)
                | Node::LongKey(_)
                | Node::IsClass(_)
                | Node::Both(_, _)
                | Node::If(_, _, _)
                | Node::Update
        )
    }
}
