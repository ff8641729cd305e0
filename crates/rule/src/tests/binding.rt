use super::operations::{binder, operands, rule_for};
use super::{class_of, functions};
use crate::{Binds, Rule};
use expando_class::ClassTable;
use fallback::Script;
use meta_object::BindContext;
use std::alloc::Global;
use std::sync::Wait;
use std::test::Fail;
use std::thread;

/// The functions of the tests: the first has two parameters, and the second has one.
fn language(alloc: Global) -> Result<Script, Fail> {
    Ok(Script::make(functions(alloc, &[&["a", "b"], &["a"]])?))
}

/// The rule of an operation, on an object with these members where its target is one.
pub(super) fn bound(
    rt: &impl Wait,
    alloc: Global,
    names: &[&str],
    word: &str,
    name: &str,
    on: &[&str],
) -> Result<Rule, Fail> {
    let table = ClassTable::new(alloc)?;
    let mut pass = table.pass(alloc)?;
    let class = class_of(rt, &table, &mut pass, names)?;
    let operands = operands(alloc, on)?;
    let binder = binder(alloc, word, name, arguments(on))?;
    let mut binds = Binds { count: 0 };
    let mut cx = BindContext {
        table: &table,
        pass: &mut pass,
    };
    let language = language(alloc)?;
    rule_for(
        rt, alloc, &language, &mut binds, &mut cx, &class, &binder, &operands,
    )
}

/// How many operands come after the target.
pub(super) fn arguments(on: &[&str]) -> u32 {
    on.len().saturating_sub(1).min(16) as u32
}

fn printed(alloc: Global, rule: &Rule) -> Result<Vec<u8>, Fail> {
    let mut out = Vec::new(alloc);
    rule.print_to(&mut out)?;
    Ok(out)
}

/// What is bound has this text.
fn wants(
    rt: &impl Wait,
    alloc: Global,
    names: &[&str],
    word: &str,
    name: &str,
    on: &[&str],
    want: &str,
) -> Result<(), Fail> {
    let rule = bound(rt, alloc, names, word, name, on)?;
    if printed(alloc, &rule)?.as_slice() != want.as_bytes() {
        return Err(Fail::new("another rule"));
    }
    Ok(())
}

#[test]
fn rules_of_gets(rt: HostRuntime) -> Result<(), Fail> {
    let alloc = rt.alloc();
    let read = "(if (and (kind 0 Obj) (class 1)) (read 0) update)";
    wants(&rt, alloc, &["x"], "get", "x", &["object"], read)?;
    wants(
        &rt,
        alloc,
        &["x"],
        "call member",
        "x",
        &["object", "7"],
        read,
    )?;
    let absent = "(if (and (kind 0 Obj) (class 1)) (throw NoMember \"x\") update)";
    wants(&rt, alloc, &["y"], "get", "x", &["object"], absent)?;
    let length = "(if (kind 0 Text) (length 0) update)";
    wants(&rt, alloc, &[], "get", "length", &["ab"], length)
}

#[test]
fn rules_of_changes(rt: HostRuntime) -> Result<(), Fail> {
    let alloc = rt.alloc();
    let appends = "(if (and (kind 0 Obj) (class 0)) (append 1 1) update)";
    wants(&rt, alloc, &[], "set", "x", &["object", "7"], appends)?;
    let writes = "(if (and (kind 0 Obj) (class 1)) (write 0 1) update)";
    wants(&rt, alloc, &["x"], "set", "x", &["object", "7"], writes)?;
    let removes = "(if (and (kind 0 Obj) (class 2)) (remove 0 3) update)";
    wants(&rt, alloc, &["x", "y"], "delete", "x", &["object"], removes)?;
    let no_member = "(if (kind 0 Nil) (throw NoMember \"x\") update)";
    wants(&rt, alloc, &[], "delete", "x", &["nil"], no_member)
}

#[test]
fn rules_of_indexes(rt: HostRuntime) -> Result<(), Fail> {
    let alloc = rt.alloc();
    let reads = "(if (and (and (kind 0 Obj) (class 1)) (key 1 \"x\")) (read 0) update)";
    wants(&rt, alloc, &["x"], "get at", "", &["object", "x"], reads)?;
    let character = "(if (and (kind 0 Text) (kind 1 Int)) (char 0 1) update)";
    wants(&rt, alloc, &[], "get at", "", &["ab", "7"], character)?;
    let appends = "(if (and (and (kind 0 Obj) (class 1)) (key 1 \"y\")) (append 2 2) update)";
    wants(
        &rt,
        alloc,
        &["x"],
        "set at",
        "",
        &["object", "y", "7"],
        appends,
    )?;
    let no_index = "(if (and (kind 0 Obj) (kind 1 Int)) (throw NoIndex) update)";
    wants(
        &rt,
        alloc,
        &["x"],
        "delete at",
        "",
        &["object", "7"],
        no_index,
    )
}

#[test]
fn rules_of_calls(rt: HostRuntime) -> Result<(), Fail> {
    let alloc = rt.alloc();
    let calls = "(if (and (kind 0 Fun) (fun 0 0)) (call 0) update)";
    wants(&rt, alloc, &[], "call", "", &["f", "7", "7"], calls)?;
    let wrong_count = "(if (and (kind 0 Fun) (fun 0 0)) (throw WrongCount 2 1) update)";
    wants(&rt, alloc, &[], "call", "", &["f", "7"], wrong_count)?;
    let makes = "(if (and (kind 0 Fun) (fun 0 1)) (make 1) update)";
    wants(&rt, alloc, &[], "new", "", &["g"], makes)?;
    let not_creatable = "(if (kind 0 Int) (throw NotCreatable Int) update)";
    wants(&rt, alloc, &[], "new", "", &["7"], not_creatable)
}

#[test]
fn rules_of_values(rt: HostRuntime) -> Result<(), Fail> {
    let alloc = rt.alloc();
    let converts = "(if (kind 0 Text) (convert Int 0) update)";
    wants(&rt, alloc, &[], "int", "", &["ab"], converts)?;
    let negates = "(if (kind 0 Int) (Negate 0) update)";
    wants(&rt, alloc, &[], "negate", "", &["7"], negates)?;
    let adds = "(if (and (kind 0 Int) (kind 1 Int)) (Add 0 1) update)";
    wants(&rt, alloc, &[], "add", "", &["7", "7"], adds)
}

/// A rule is printed behind what is there, and its parts are lent.
#[test]
fn a_rule_is_appended(rt: HostRuntime) -> Result<(), Fail> {
    let alloc = rt.alloc();
    let rule = bound(&rt, alloc, &["x"], "get", "x", &["object"])?;
    let mut out = vec![in alloc; b'>']?;
    rule.print_to(&mut out)?;
    let want = ">(if (and (kind 0 Obj) (class 1)) (read 0) update)";
    assert!(rt; out.as_slice() == want.as_bytes());
    let mut parts = Vec::new(alloc);
    rule.binder().print_to(&mut parts)?;
    rule.test().print_to(&mut parts)?;
    rule.body().tree().print_to(&mut parts)?;
    let want = "GetMember \"x\"(and (kind 0 Obj) (class 1))(read 0)";
    assert!(rt; parts.as_slice() == want.as_bytes());
    assert!(rt; matches!(&rule.claim().class, Some(claimed) if claimed.class == 1));
    Ok(())
}

/// Binding succeeds where memory is left, however often it was done, and each answer is counted.
#[test]
fn a_hundred_rules(rt: HostRuntime) -> Result<(), Fail> {
    let alloc = rt.alloc();
    let mut binds = Binds { count: 0 };
    for number in 0..100u32 {
        bind_set(&rt, alloc, &mut binds, number)?;
    }
    assert_eq!(rt; binds.count, 100);
    Ok(())
}

/// Binds a set of the member of this number, of an object without members.
fn bind_set(rt: &impl Wait, alloc: Global, binds: &mut Binds, number: u32) -> Result<(), Fail> {
    let table = ClassTable::new(alloc)?;
    let mut pass = table.pass(alloc)?;
    let class = table.root();
    let name = format!(in alloc; "m{number}")?;
    let binder = binder(alloc, "set", name.as_str(), 1)?;
    let operands = operands(alloc, &["object", "7"])?;
    let language = language(alloc)?;
    let mut cx = BindContext {
        table: &table,
        pass: &mut pass,
    };
    rule_for(
        rt, alloc, &language, binds, &mut cx, &class, &binder, &operands,
    )?;
    Ok(())
}

/// Two threads read a rule at once, and it moves into one.
#[test]
fn rules_between_threads(rt: HostRuntime) -> Result<(), Fail> {
    let alloc = rt.alloc();
    let rule = bound(&rt, alloc, &["x"], "get", "x", &["object"])?;
    let (one, other) = thread::join(
        &rt,
        || rule.test().nodes().len(),
        || rule.body().tree().nodes().len(),
    );
    assert_eq!(rt; (one, other), (3, 1));
    let (moved, _) = thread::join(&rt, move || rule.test().nodes().len(), || ());
    assert_eq!(rt; moved, 3);
    Ok(())
}
