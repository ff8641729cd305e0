ghost use Rattle.std.specs.Prelude.{◌≡◌, IfOk};
ghost use Rattle.rule_model.specs.MemberAnswers.{member_node, reach_of};

use dyn_value::{DynText, Fault};
use expr_tree::Node;
use standard_binders::Binder;
use std::alloc::AllocError;

/// How an operation reaches the member of a name.
#[derive(Clone, Copy, Debug)]
pub enum Reach {
    /// It reads the member's value.
    Reads,
    /// It sets the value to the operand of this number, and adds the member where there is none.
    Writes(u8),
    /// It removes the member.
    Deletes,
}

impl Reach {
    /// How the operation of this binder, which is one on members, reaches one.
    pub fn of(binder: &Binder) -> Reach
        ensures { result ≡ reach_of binder.now }
    {
        match binder {
            Binder::SetMember { .. } => Reach::Writes(1),
            Binder::SetIndex => Reach::Writes(2),
            Binder::DeleteMember { .. } | Binder::DeleteIndex => Reach::Deletes,
            _ => Reach::Reads,
        }
    }

    /// The node that reaches the member of a name, which stands at this place of its class, or nowhere. `full` says
    /// whether the class has as many names as an object may have members, and `after` is the number of the class to
    /// which an object moves that gets or loses the member. The one error is want of memory.
    pub fn node(
        self,
        name: &DynText,
        place: Option<u16>,
        full: bool,
        after: u128,
    ) -> Result<Node, AllocError>
        ensures { IfOk result (λ node. node ≡ member_node self name.now place full after) }
    {
        Ok(match (self, place) {
            (Reach::Reads, Some(place)) => Node::Read(place),
            (Reach::Writes(operand), Some(place)) => Node::Write(place, operand),
            (Reach::Deletes, Some(place)) => Node::Remove(place, after),
            (Reach::Writes(_), None) if full => Node::Throw(Fault::MembersFull),
            (Reach::Writes(operand), None) => Node::Append(after, operand),
            (Reach::Reads | Reach::Deletes, None) => Node::Throw(Fault::NoMember(name.copy()?)),
        })
    }
}
