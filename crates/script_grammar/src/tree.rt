use dyn_value::{BinOp, DynText, Kind, UnOp};
use sqlite_items::{Boxed, Items};

/// A script: its items in order, and what they declare, in the order of their numbers.
#[derive(Debug, Drop)]
pub struct Script {
    pub items: Items<Item>,
    /// The shared names.
    pub shared: Items<DynText>,
    pub functions: Items<Function>,
    pub tasks: Items<Task>,
}

/// What stands at the top of a script. Its number is its place among those of its kind.
#[derive(Clone, Copy, Debug)]
pub enum Item {
    /// `shared NAME ;`
    Shared(u32),
    /// `fn NAME ( NAMES ) BLOCK`
    Fun(u32),
    /// `task NAME BLOCK`
    Task(u32),
}

/// `fn NAME ( NAMES ) BLOCK`
#[derive(Debug, Drop)]
pub struct Function {
    pub name: DynText,
    pub params: Items<DynText>,
    pub body: Block,
}

/// `task NAME BLOCK`
#[derive(Debug, Drop)]
pub struct Task {
    pub name: DynText,
    pub body: Block,
}

/// `{ STATEMENT.. }`
#[derive(Debug, Drop)]
#[cycle(stmt)]
pub struct Block(pub Items<Stmt>);

/// A statement.
#[derive(Debug, Drop)]
#[cycle(stmt)]
pub enum Stmt {
    /// `let NAME = EXPRESSION ;`
    Let {
        name: DynText,
        value: Expr,
    },
    /// `NAME = EXPRESSION ;`
    Assign {
        name: DynText,
        value: Expr,
    },
    /// `EXPRESSION . NAME = EXPRESSION ;`
    SetMember {
        target: Expr,
        name: DynText,
        value: Expr,
    },
    /// `EXPRESSION [ EXPRESSION ] = EXPRESSION ;`
    SetIndex {
        target: Expr,
        key: Expr,
        value: Expr,
    },
    /// `delete EXPRESSION . NAME ;`
    DeleteMember {
        target: Expr,
        name: DynText,
    },
    /// `delete EXPRESSION [ EXPRESSION ] ;`
    DeleteIndex {
        target: Expr,
        key: Expr,
    },
    /// `if EXPRESSION BLOCK` and perhaps `else BLOCK`
    If {
        test: Expr,
        yes: Block,
        no: Option<Block>,
    },
    /// `while EXPRESSION BLOCK`
    While {
        test: Expr,
        body: Block,
    },
    /// `return EXPRESSION ;`
    Return(Expr),
    /// `print EXPRESSION ;`
    Print(Expr),
    /// `try BLOCK catch NAME BLOCK`
    Try {
        body: Block,
        name: DynText,
        caught: Block,
    },
    /// `EXPRESSION ;`
    Plain(Expr),
}

/// An expression.
#[derive(Debug, Drop)]
#[cycle(expr)]
pub struct Expr {
    pub head: Head,
    pub suffixes: Items<Suffix>,
}

/// What an expression begins with.
#[derive(Debug, Drop)]
#[cycle(expr)]
pub enum Head {
    /// A number, which is not negative.
    Int(i64),
    Text(DynText),
    Nil,
    True,
    False,
    Name(DynText),
    /// `( OPERATOR EXPRESSION )`
    Unary {
        op: UnOp,
        value: Boxed<Expr>,
    },
    /// `( EXPRESSION OPERATOR EXPRESSION )`
    Binary {
        op: BinOp,
        left: Boxed<Expr>,
        right: Boxed<Expr>,
    },
    /// `new ( )`
    New,
    /// `new ( EXPRESSION , ARGUMENTS )`
    NewOf {
        target: Boxed<Expr>,
        args: Items<Arg>,
    },
    /// `int ( EXPRESSION )`, `text ( EXPRESSION )` or `bool ( EXPRESSION )`
    Convert {
        to: Kind,
        value: Boxed<Expr>,
    },
}

/// What stands after the head of an expression.
#[derive(Debug, Drop)]
#[cycle(expr)]
pub enum Suffix {
    /// `. NAME`
    Member { name: DynText },
    /// `. NAME ( ARGUMENTS )`
    MemberCall { name: DynText, args: Items<Arg> },
    /// `[ EXPRESSION ]`
    Index(Expr),
    /// `( ARGUMENTS )`
    Call(Items<Arg>),
}

/// An argument of a call: `EXPRESSION` or `NAME : EXPRESSION`
#[derive(Debug, Drop)]
#[cycle(expr)]
pub struct Arg {
    pub name: Option<DynText>,
    pub value: Expr,
}
