use super::script_sites;
use crate::limits::{What, declared_too_many};
use crate::locals::{have_functions_few_locals, have_tasks_few_locals};
use crate::numbering::numbered;
use dyn_value::{BinOp, DynText, Kind, UnOp};
use script_grammar::{Arg, Block, Expr, Function, Head, Item, Script, Stmt, Suffix, Task};
use sqlite_items::{Boxed, Items};
use standard_binders::Binder;
use std::alloc::Global;
use std::test::Fail;

fn text(alloc: Global, characters: &str) -> Result<DynText, Fail> {
    Ok(DynText::from_str(alloc, characters)?.ok_or("too long")?)
}

fn expr(alloc: Global, head: Head) -> Expr {
    Expr {
        head,
        suffixes: Items::new(alloc),
    }
}

/// The expression that is this name.
fn name(alloc: Global, characters: &str) -> Result<Expr, Fail> {
    let head = Head::Name(text(alloc, characters)?);
    Ok(expr(alloc, head))
}

/// The expression with one suffix more.
fn with(mut whole: Expr, suffix: Suffix) -> Result<Expr, Fail> {
    whole.suffixes.push(suffix)?;
    Ok(whole)
}

/// The member of this name of the object of that name.
fn member(alloc: Global, target: &str, member: &str) -> Result<Expr, Fail> {
    let target = name(alloc, target)?;
    let name = text(alloc, member)?;
    with(target, Suffix::Member { name })
}

/// `(left + right)`, of two members.
fn sum(alloc: Global, left: &str, right: &str) -> Result<Expr, Fail> {
    let left = Boxed::new(alloc, member(alloc, "o", left)?)?;
    let right = Boxed::new(alloc, member(alloc, "o", right)?)?;
    let op = BinOp::Add;
    Ok(expr(alloc, Head::Binary { op, left, right }))
}

/// So many arguments, each a member, the last of which have these names.
fn args(alloc: Global, count: usize, names: &[&str]) -> Result<Items<Arg>, Fail> {
    let mut args = Items::new(alloc);
    for place in 0..count {
        let name = match place.checked_sub(count.saturating_sub(names.len())) {
            Some(named) => match names.get(named) {
                Some(name) => Some(text(alloc, *name)?),
                None => None,
            },
            None => None,
        };
        let value = member(alloc, "o", "a")?;
        args.push(Arg { name, value })?;
    }
    Ok(args)
}

/// The block of one statement.
fn only(alloc: Global, stmt: Stmt) -> Result<Block, Fail> {
    let mut stmts = Items::new(alloc);
    stmts.push(stmt)?;
    Ok(Block(stmts))
}

fn script(alloc: Global) -> Script {
    Script {
        items: Items::new(alloc),
        shared: Items::new(alloc),
        functions: Items::new(alloc),
        tasks: Items::new(alloc),
    }
}

/// The script of one task with this body.
fn script_of(alloc: Global, body: Block) -> Result<Script, Fail> {
    let mut whole = script(alloc);
    let name = text(alloc, "t")?;
    whole.items.push(Item::Task(0))?;
    whole.tasks.push(Task { name, body })?;
    Ok(whole)
}

/// The texts of the binders of a script's sites, each after a comma; `-` where no call has the arguments.
fn binders_of(alloc: Global, script: &Script) -> Result<Vec<u8>, Fail> {
    let mut out = Vec::new(alloc);
    for site in script_sites(alloc, script)?.sites.as_slice() {
        out.push(b',')?;
        match site {
            Some(binder) => binder.print_to(&mut out)?,
            None => out.push(b'-')?,
        }
    }
    Ok(out)
}

/// The form of a statement that the table below names.
#[derive(Clone, Copy, Debug)]
enum Form {
    Let,
    Assign,
    SetMember,
    SetIndex,
    DeleteMember,
    DeleteIndex,
    If,
    IfElse,
    While,
    Return,
    Print,
    Try,
    Call(usize, &'static [&'static str]),
    MemberCall(usize, &'static [&'static str]),
    NewOf(usize, &'static [&'static str]),
    New,
    Negate,
    Convert,
    Index,
}

fn stmt(alloc: Global, form: Form) -> Result<Stmt, Fail> {
    let n = text(alloc, "n")?;
    let value = member(alloc, "o", "v")?;
    let target = member(alloc, "o", "t")?;
    let key = member(alloc, "o", "k")?;
    Ok(match form {
        Form::Let => Stmt::Let { name: n, value },
        Form::Assign => Stmt::Assign { name: n, value },
        Form::SetMember => Stmt::SetMember {
            target,
            name: n,
            value,
        },
        Form::SetIndex => Stmt::SetIndex { target, key, value },
        Form::DeleteMember => Stmt::DeleteMember { target, name: n },
        Form::DeleteIndex => Stmt::DeleteIndex { target, key },
        Form::If => Stmt::If {
            test: sum(alloc, "a", "b")?,
            yes: only(alloc, Stmt::Print(value))?,
            no: None,
        },
        Form::IfElse => Stmt::If {
            test: value,
            yes: only(alloc, Stmt::Print(target))?,
            no: Some(only(alloc, Stmt::Print(key))?),
        },
        Form::While => Stmt::While {
            test: value,
            body: only(alloc, Stmt::Print(target))?,
        },
        Form::Return => Stmt::Return(value),
        Form::Print => Stmt::Print(sum(alloc, "a", "b")?),
        Form::Try => Stmt::Try {
            body: only(alloc, Stmt::Print(target))?,
            name: n,
            caught: only(alloc, Stmt::Print(key))?,
        },
        Form::Call(count, names) => Stmt::Plain(with(
            target,
            Suffix::Call(args(alloc, count, names)?),
        )?),
        Form::MemberCall(count, names) => {
            let args = args(alloc, count, names)?;
            Stmt::Plain(with(target, Suffix::MemberCall { name: n, args })?)
        }
        Form::NewOf(count, names) => {
            let target = Boxed::new(alloc, target)?;
            let args = args(alloc, count, names)?;
            Stmt::Plain(expr(alloc, Head::NewOf { target, args }))
        }
        Form::New => Stmt::Plain(expr(alloc, Head::New)),
        Form::Negate => {
            let value = Boxed::new(alloc, value)?;
            let op = UnOp::Negate;
            Stmt::Plain(expr(alloc, Head::Unary { op, value }))
        }
        Form::Convert => {
            let value = Boxed::new(alloc, value)?;
            let to = Kind::Text;
            Stmt::Plain(expr(alloc, Head::Convert { to, value }))
        }
        Form::Index => Stmt::Plain(with(target, Suffix::Index(key))?),
    })
}

#[test]
fn sites_of_each_form(rt: HostRuntime) -> Result<(), Fail> {
    let alloc = rt.alloc();
    let rows = [
        (Form::Let, ",GetMember \"v\""),
        (Form::Assign, ",GetMember \"v\""),
        (
            Form::SetMember,
            ",GetMember \"t\",SetMember \"n\",GetMember \"v\"",
        ),
        (
            Form::SetIndex,
            ",GetMember \"t\",SetIndex,GetMember \"k\",GetMember \"v\"",
        ),
        (Form::DeleteMember, ",GetMember \"t\",DeleteMember \"n\""),
        (
            Form::DeleteIndex,
            ",GetMember \"t\",DeleteIndex,GetMember \"k\"",
        ),
        (
            Form::If,
            ",IsTrue,GetMember \"a\",Add,GetMember \"b\",GetMember \"v\"",
        ),
        (
            Form::IfElse,
            ",IsTrue,GetMember \"v\",GetMember \"t\",GetMember \"k\"",
        ),
        (Form::While, ",IsTrue,GetMember \"v\",GetMember \"t\""),
        (Form::Return, ",GetMember \"v\""),
        (Form::Print, ",GetMember \"a\",Add,GetMember \"b\""),
        (Form::Try, ",GetMember \"t\",GetMember \"k\""),
        (Form::Call(0, &[]), ",GetMember \"t\",Invoke 0"),
        (
            Form::Call(2, &["x"]),
            ",GetMember \"t\",Invoke 2 x,GetMember \"a\",GetMember \"a\"",
        ),
        (
            Form::MemberCall(1, &[]),
            ",GetMember \"t\",InvokeMember \"n\" 1,Invoke 1,GetMember \"a\"",
        ),
        (
            Form::NewOf(2, &["y", "x"]),
            ",CreateInstance 2 y x,GetMember \"t\",GetMember \"a\",GetMember \"a\"",
        ),
        (Form::NewOf(0, &[]), ",CreateInstance 0,GetMember \"t\""),
        (Form::New, ""),
        (Form::Negate, ",Negate,GetMember \"v\""),
        (Form::Convert, ",Convert Text,GetMember \"v\""),
        (Form::Index, ",GetMember \"t\",GetIndex,GetMember \"k\""),
        (
            Form::Call(2, &["x", "x"]),
            ",GetMember \"t\",-,GetMember \"a\",GetMember \"a\"",
        ),
    ];
    for (form, want) in rows {
        let body = only(alloc, stmt(alloc, form)?)?;
        let got = binders_of(alloc, &script_of(alloc, body)?)?;
        assert!(rt; got.as_slice() == want.as_bytes(), "{form:?}");
    }
    Ok(())
}

#[test]
fn a_call_of_sixteen_and_of_seventeen_arguments(rt: HostRuntime) -> Result<(), Fail> {
    let alloc = rt.alloc();
    for (count, is_made) in [(16, true), (17, false)] {
        for form in [Form::Call(count, &["x"]), Form::NewOf(count, &[])] {
            let body = only(alloc, stmt(alloc, form)?)?;
            let found = script_sites(alloc, &script_of(alloc, body)?)?;
            let is_whole = found.sites.as_slice().iter().all(|site| site.is_some());
            assert!(rt; is_whole == is_made, "{form:?}");
        }
    }
    Ok(())
}

/// A function whose body reads so many members.
fn function(alloc: Global, reads: u32) -> Result<Function, Fail> {
    let mut stmts = Items::new(alloc);
    for _ in 0..reads {
        stmts.push(stmt(alloc, Form::Return)?)?;
    }
    Ok(Function {
        name: text(alloc, "f")?,
        params: Items::new(alloc),
        body: Block(stmts),
    })
}

#[test]
fn functions_and_tasks_number_their_sites_where_they_stand(rt: HostRuntime) -> Result<(), Fail> {
    let alloc = rt.alloc();
    let mut whole = script(alloc);
    for item in [
        Item::Fun(0),
        Item::Task(0),
        Item::Shared(0),
        Item::Fun(1),
        Item::Task(1),
    ] {
        whole.items.push(item)?;
    }
    whole.shared.push(text(alloc, "s")?)?;
    for reads in [2, 3] {
        whole.functions.push(function(alloc, reads)?)?;
    }
    for form in [Form::While, Form::Let] {
        let body = only(alloc, stmt(alloc, form)?)?;
        let name = text(alloc, "t")?;
        whole.tasks.push(Task { name, body })?;
    }
    let found = script_sites(alloc, &whole)?;
    assert!(rt; found.function_starts.as_slice() == [0, 5].as_slice());
    assert!(rt; found.task_starts.as_slice() == [2, 8].as_slice());
    assert!(rt; found.sites.len() == 9);
    Ok(())
}

#[test]
fn binders_are_numbered_in_the_order_of_their_first_sites(rt: HostRuntime) -> Result<(), Fail> {
    let alloc = rt.alloc();
    let mut at_sites = Items::new(alloc);
    for letter in ["a", "b", "a", "c", "b"] {
        let name = text(alloc, letter)?;
        at_sites.push(Binder::GetMember {
            name,
            ignore_case: false,
        })?;
    }
    at_sites.push(Binder::GetIndex)?;
    let most = at_sites.len();
    assert!(rt; most <= 4096);
    if most <= 4096 {
        let numbers = numbered(alloc, at_sites.as_slice())?;
        assert!(rt; numbers.sites.as_slice() == [0, 1, 0, 2, 1, 3].as_slice());
        assert!(rt; numbers.binders.len() == 4);
    }
    Ok(())
}

/// A script with so many shared names, functions and tasks; each function has so many parameters.
fn declaring(alloc: Global, counts: [usize; 4]) -> Result<Script, Fail> {
    let [shared, functions, tasks, params] = counts;
    let mut whole = script(alloc);
    for _ in 0..shared {
        whole.shared.push(text(alloc, "s")?)?;
    }
    for _ in 0..functions {
        let mut one = function(alloc, 0)?;
        for _ in 0..params {
            one.params.push(text(alloc, "p")?)?;
        }
        whole.functions.push(one)?;
    }
    for _ in 0..tasks {
        let name = text(alloc, "t")?;
        let body = Block(Items::new(alloc));
        whole.tasks.push(Task { name, body })?;
    }
    Ok(whole)
}

#[test]
fn the_most_that_a_script_declares(rt: HostRuntime) -> Result<(), Fail> {
    let alloc = rt.alloc();
    let rows = [
        ([64, 256, 8, 0], None),
        ([65, 257, 9, 0], Some(What::Shared)),
        ([64, 257, 9, 0], Some(What::Functions)),
        ([64, 256, 9, 0], Some(What::Tasks)),
        ([0, 1, 9, 17], Some(What::Tasks)),
        ([0, 1, 0, 17], Some(What::Parameters)),
        ([0, 1, 0, 16], None),
    ];
    for (counts, want) in rows {
        let got = declared_too_many(&declaring(alloc, counts)?);
        assert!(rt; got == want, "{counts:?}");
    }
    Ok(())
}

/// A block of so many `let`s, and a `try` with a `catch` name in a loop.
fn locals(alloc: Global, count: u32) -> Result<Block, Fail> {
    let mut stmts = Items::new(alloc);
    for _ in 0..count {
        stmts.push(stmt(alloc, Form::Let)?)?;
    }
    stmts.push(Stmt::While {
        test: member(alloc, "o", "v")?,
        body: only(alloc, stmt(alloc, Form::Try)?)?,
    })?;
    Ok(Block(stmts))
}

#[test]
fn the_most_locals(rt: HostRuntime) -> Result<(), Fail> {
    let alloc = rt.alloc();
    for (lets, params, is_task_few, is_function_few) in [
        (255, 0, true, true),
        (256, 0, false, false),
        (253, 2, true, true),
        (254, 2, true, false),
    ] {
        let task = Task {
            name: text(alloc, "t")?,
            body: locals(alloc, lets)?,
        };
        let mut one = function(alloc, 0)?;
        for _ in 0..params {
            one.params.push(text(alloc, "p")?)?;
        }
        one.body = locals(alloc, lets)?;
        assert!(rt;
            have_tasks_few_locals([task].as_slice()) == is_task_few,
            "{lets}"
        );
        assert!(rt;
            have_functions_few_locals([one].as_slice()) == is_function_few,
            "{lets}"
        );
    }
    Ok(())
}
