use dyn_value::{DynText, Value};
use sqlite_items::{Boxed, Items};

/// The code of a function.
#[derive(Debug, Drop)]
pub struct FunctionCode {
    /// The names of the parameters, which are the first locals.
    pub params: Items<DynText>,
    pub body: Steps,
}

/// The code of a block.
#[derive(Debug, Drop)]
#[cycle(steps)]
pub struct Steps(pub Items<Step>);

/// A statement whose names and sites are resolved.
#[derive(Debug, Drop)]
#[cycle(steps)]
pub enum Step {
    /// The local of this number has the value from here on.
    Set {
        local: u32,
        value: Node,
    },
    SetMember {
        site: u32,
        target: Node,
        value: Node,
    },
    SetIndex {
        site: u32,
        target: Node,
        key: Node,
        value: Node,
    },
    DeleteMember {
        site: u32,
        target: Node,
    },
    DeleteIndex {
        site: u32,
        target: Node,
        key: Node,
    },
    If {
        site: u32,
        test: Node,
        yes: Steps,
        no: Option<Steps>,
    },
    While {
        site: u32,
        test: Node,
        body: Steps,
    },
    Return(Node),
    Print(Node),
    /// The local of this number has the text of the fault that was caught.
    Try {
        body: Steps,
        local: u32,
        caught: Steps,
    },
    Plain(Node),
}

/// An expression whose names and sites are resolved.
#[derive(Debug, Drop)]
#[cycle(node)]
pub struct Node {
    pub head: NodeHead,
    pub suffixes: Items<NodeSuffix>,
}

/// What an expression begins with.
#[derive(Debug, Drop)]
#[cycle(node)]
pub enum NodeHead {
    /// A value: that of a literal, or of the name of a function or a shared object.
    Literal(Value),
    /// The local of this number.
    Local(u32),
    /// An operation of one operand.
    Unary {
        site: u32,
        value: Boxed<Node>,
    },
    /// An operation of two operands.
    Binary {
        site: u32,
        left: Boxed<Node>,
        right: Boxed<Node>,
    },
    /// A new object.
    New,
    /// A new object, made by a function.
    NewOf {
        site: u32,
        target: Boxed<Node>,
        args: Items<Node>,
    },
}

/// What stands after the head of an expression.
#[derive(Debug, Drop)]
#[cycle(node)]
pub enum NodeSuffix {
    Member { site: u32 },
    /// A member is read at this site, and called at the next.
    MemberCall { site: u32, args: Items<Node> },
    Index { site: u32, key: Node },
    Call { site: u32, args: Items<Node> },
}
