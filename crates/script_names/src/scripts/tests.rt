use super::first_bad_name;
use dyn_value::DynText;
use script_grammar::{Arg, Block, Expr, Function, Head, Item, Script, Stmt, Suffix, Task};
use script_sites::{LimitFault, What, number_sites};
use sqlite_items::Items;
use std::alloc::{AllocError, Global};
use std::test::Fail;

/// A statement as the table below writes it. An expression is a name, or `nil` where it is empty.
#[derive(Clone, Copy)]
enum Form {
    Let(&'static str, &'static str),
    Assign(&'static str, &'static str),
    Print(&'static str),
    SetMember(&'static str, &'static str, &'static str),
    /// A call whose arguments have these names, if they are not empty, and these values.
    Call(&'static str, &'static [(&'static str, &'static str)]),
    If(&'static [Form], &'static [Form]),
    While(&'static [Form]),
    Try(&'static [Form], &'static str, &'static [Form]),
}

/// What stands at the top of a script.
#[derive(Clone, Copy)]
enum Top {
    Shared(&'static str),
    Fun(&'static str, &'static [&'static str], &'static [Form]),
    Task(&'static str, &'static [Form]),
}

use Form::{Assign, Call, If, Let, Print, SetMember, Try, While};

fn text(alloc: Global, characters: &str) -> Result<DynText, Fail> {
    Ok(DynText::from_str(alloc, characters)?.ok_or("too long")?)
}

fn expr(alloc: Global, name: &str) -> Result<Expr, Fail> {
    let head = if name.is_empty() {
        Head::Nil
    } else {
        Head::Name(text(alloc, name)?)
    };
    Ok(Expr {
        head,
        suffixes: Items::new(alloc),
    })
}

/// The call of the function of this name.
fn call(alloc: Global, name: &str, args: &[(&str, &str)]) -> Result<Expr, Fail> {
    let mut all = Items::new(alloc);
    for (name, value) in args {
        let name = if name.is_empty() {
            None
        } else {
            Some(text(alloc, *name)?)
        };
        let value = expr(alloc, *value)?;
        all.push(Arg { name, value })?;
    }
    let mut whole = expr(alloc, name)?;
    whole.suffixes.push(Suffix::Call(all))?;
    Ok(whole)
}

#[cycle(forms)]
fn block(alloc: Global, forms: &[Form]) -> Result<Block, Fail> {
    let mut stmts = Items::new(alloc);
    for form in forms {
        stmts.push(stmt(alloc, form)?)?;
    }
    Ok(Block(stmts))
}

#[cycle(forms)]
fn stmt(alloc: Global, form: &Form) -> Result<Stmt, Fail> {
    Ok(match form {
        Let(name, value) => Stmt::Let {
            name: text(alloc, *name)?,
            value: expr(alloc, *value)?,
        },
        Assign(name, value) => Stmt::Assign {
            name: text(alloc, *name)?,
            value: expr(alloc, *value)?,
        },
        Print(value) => Stmt::Print(expr(alloc, *value)?),
        SetMember(target, name, value) => Stmt::SetMember {
            target: expr(alloc, *target)?,
            name: text(alloc, *name)?,
            value: expr(alloc, *value)?,
        },
        Call(name, args) => Stmt::Plain(call(alloc, *name, *args)?),
        If(yes, no) => Stmt::If {
            test: expr(alloc, "")?,
            yes: block(alloc, *yes)?,
            no: Some(block(alloc, *no)?),
        },
        While(body) => Stmt::While {
            test: expr(alloc, "")?,
            body: block(alloc, *body)?,
        },
        Try(body, name, caught) => Stmt::Try {
            body: block(alloc, *body)?,
            name: text(alloc, *name)?,
            caught: block(alloc, *caught)?,
        },
    })
}

fn no_script(alloc: Global) -> Script {
    Script {
        items: Items::new(alloc),
        shared: Items::new(alloc),
        functions: Items::new(alloc),
        tasks: Items::new(alloc),
    }
}

fn add(alloc: Global, script: &mut Script, top: Top) -> Result<(), Fail> {
    match top {
        Top::Shared(name) => {
            script.items.push(Item::Shared(0))?;
            script.shared.push(text(alloc, name)?)?;
        }
        Top::Fun(name, params, forms) => {
            let mut all = Items::new(alloc);
            for param in params {
                all.push(text(alloc, *param)?)?;
            }
            let name = text(alloc, name)?;
            let body = block(alloc, forms)?;
            script.items.push(Item::Fun(0))?;
            script.functions.push(Function {
                name,
                params: all,
                body,
            })?;
        }
        Top::Task(name, forms) => {
            let name = text(alloc, name)?;
            let body = block(alloc, forms)?;
            script.items.push(Item::Task(0))?;
            script.tasks.push(Task { name, body })?;
        }
    }
    Ok(())
}

/// Scripts, each with the place of the first token that is a name and breaks a rule.
static SCRIPTS: [(&[Top], Option<usize>); 25] = [
    (&[], None),
    // names of items
    (&[Top::Shared("s"), Top::Shared("r")], None),
    (&[Top::Shared("s"), Top::Shared("s")], Some(4)),
    (&[Top::Shared("s"), Top::Task("s", &[])], Some(4)),
    (&[Top::Task("s", &[]), Top::Fun("s", &[], &[])], Some(5)),
    // names of locals
    (&[Top::Task("t", &[Let("a", ""), Print("a")])], None),
    (&[Top::Task("t", &[Let("a", "a")])], Some(6)),
    (&[Top::Task("t", &[Let("a", ""), Let("a", "")])], Some(9)),
    (
        &[Top::Task("t", &[Let("s", "")]), Top::Shared("s")],
        Some(4),
    ),
    (&[Top::Task("t", &[Let("t", "")])], Some(4)),
    (
        &[Top::Task("t", &[While(&[Let("a", "")]), Let("a", "")])],
        None,
    ),
    (
        &[Top::Task("t", &[Let("a", ""), While(&[Let("a", "")])])],
        Some(12),
    ),
    (
        &[Top::Task("t", &[If(&[Let("a", "")], &[Print("a")])])],
        Some(15),
    ),
    (
        &[Top::Task("t", &[Try(&[Let("a", "")], "e", &[Print("a")])])],
        Some(15),
    ),
    (
        &[Top::Task("t", &[Try(&[], "e", &[Print("e")]), Print("e")])],
        Some(14),
    ),
    (
        &[Top::Task("t", &[Let("e", ""), Try(&[], "e", &[])])],
        Some(12),
    ),
    // parameters
    (&[Top::Fun("f", &["a", "a"], &[])], Some(5)),
    (&[Top::Fun("f", &["f"], &[])], Some(3)),
    (&[Top::Fun("f", &["a"], &[Let("a", "")])], Some(7)),
    (
        &[
            Top::Fun("f", &["a", "b"], &[Print("b"), Print("f"), Print("s")]),
            Top::Shared("s"),
        ],
        None,
    ),
    // other names
    (&[Top::Task("t", &[Print("t")])], Some(4)),
    (
        &[Top::Shared("s"), Top::Task("t", &[Assign("s", "")])],
        Some(6),
    ),
    (
        &[
            Top::Shared("s"),
            Top::Task("t", &[SetMember("s", "x", "s")]),
        ],
        None,
    ),
    // names of arguments
    (
        &[
            Top::Shared("f"),
            Top::Task("t", &[Call("f", &[("x", ""), ("x", "")])]),
        ],
        Some(12),
    ),
    (
        &[
            Top::Shared("f"),
            Top::Task("t", &[Call("f", &[("x", ""), ("y", "x")])]),
        ],
        Some(14),
    ),
];

#[test]
fn the_first_name_that_breaks_a_rule(rt: HostRuntime) -> Result<(), Fail> {
    let alloc = rt.alloc();
    for (number, (tops, want)) in SCRIPTS.iter().enumerate() {
        let mut script = no_script(alloc);
        for top in *tops {
            add(alloc, &mut script, *top)?;
        }
        let got = first_bad_name(alloc, &script)?;
        assert!(rt; got == *want, "script {number}");
    }
    Ok(())
}

/// What a script of one task has so many of: `let`s, calls with so many arguments, reads of one member, and reads
/// of different members.
#[derive(Clone, Copy, Debug)]
struct Counts {
    lets: u32,
    arguments: u32,
    reads: u32,
    members: u32,
}

fn member(alloc: Global, name: &str) -> Result<Stmt, Fail> {
    let mut whole = expr(alloc, "")?;
    let name = text(alloc, name)?;
    whole.suffixes.push(Suffix::Member { name })?;
    Ok(Stmt::Plain(whole))
}

fn script_of(alloc: Global, counts: Counts) -> Result<Script, Fail> {
    let mut stmts = Items::new(alloc);
    for number in 0..counts.lets {
        let name = format!(in alloc; "a{number}")?;
        stmts.push(Stmt::Let {
            name: text(alloc, name.as_str())?,
            value: expr(alloc, "")?,
        })?;
    }
    let mut args = Items::new(alloc);
    for _ in 0..counts.arguments {
        let value = expr(alloc, "")?;
        args.push(Arg { name: None, value })?;
    }
    let mut whole = expr(alloc, "")?;
    whole.suffixes.push(Suffix::Call(args))?;
    stmts.push(Stmt::Plain(whole))?;
    for _ in 0..counts.reads {
        stmts.push(member(alloc, "m0")?)?;
    }
    for number in 0..counts.members {
        let name = format!(in alloc; "m{number}")?;
        stmts.push(member(alloc, name.as_str())?)?;
    }
    let mut script = no_script(alloc);
    script.items.push(Item::Task(0))?;
    script.tasks.push(Task {
        name: text(alloc, "t")?,
        body: Block(stmts),
    })?;
    Ok(script)
}

/// The first limit that a script passes; none of its names breaks a rule.
fn too_many(alloc: Global, script: &Script) -> Result<Option<What>, Fail> {
    match first_bad_name(alloc, script)? {
        Some(_) => Err("a bad name".into()),
        None => match number_sites(alloc, script) {
            Ok(_) => Ok(None),
            Err(LimitFault::TooMany(what)) => Ok(Some(what)),
            Err(LimitFault::Memory) => Err(Fail::from(AllocError)),
        },
    }
}

#[test]
fn the_first_limit_that_is_passed(rt: HostRuntime) -> Result<(), Fail> {
    let alloc = rt.alloc();
    let rows = [
        ((256, 16, 0, 0), None),
        ((257, 16, 0, 0), Some(What::Locals)),
        ((257, 17, 0, 0), Some(What::Arguments)),
        ((0, 0, 4095, 0), None),
        ((0, 0, 4096, 0), Some(What::Sites)),
        ((257, 0, 4096, 0), Some(What::Locals)),
        ((0, 0, 0, 1023), None),
        ((0, 0, 0, 1024), Some(What::Binders)),
        ((0, 0, 3072, 1024), Some(What::Sites)),
    ];
    for ((lets, arguments, reads, members), want) in rows {
        let counts = Counts {
            lets,
            arguments,
            reads,
            members,
        };
        let got = too_many(alloc, &script_of(alloc, counts)?)?;
        assert!(rt; got == want, "{counts:?}");
    }
    Ok(())
}
