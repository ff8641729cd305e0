use super::binding::{arguments, bound};
use super::operations::{binder, operands, rule_for};
use super::{class_of, functions};
use crate::{Adopted, Binds, Claimed, Rule, claim_holds};
use expando_class::{ClassRef, ClassTable};
use fallback::Script;
use meta_object::BindContext;
use std::alloc::Global;
use std::sync::Wait;
use std::test::Fail;

/// What is answered, in a word, and the numbers of the classes that are handed out.
#[derive(Clone, Copy, Debug, PartialEq, Eq)]
enum Answer {
    Holds(Option<u128>, Option<u128>),
    Fails,
    Unseen,
}

fn told(claimed: Claimed) -> Answer {
    match claimed {
        Claimed::Holds(Adopted { class, after }) => {
            Answer::Holds(number(class.as_ref()), number(after.as_ref()))
        }
        Claimed::Fails => Answer::Fails,
        Claimed::Unseen => Answer::Unseen,
    }
}

fn number(class: Option<&ClassRef>) -> Option<u128> {
    Some(class?.number())
}

/// What is answered of the claim of a rule by another table, whose classes got these names in turn.
fn told_by(rt: &impl Wait, alloc: Global, rule: &Rule, names: &[&str]) -> Result<Answer, Fail> {
    let table = ClassTable::new(alloc)?;
    let mut pass = table.pass(alloc)?;
    class_of(rt, &table, &mut pass, names)?;
    Ok(told(claim_holds(rule, &table, &functions(alloc, &[])?)))
}

/// Another table answers so.
fn wants(
    rt: &impl Wait,
    alloc: Global,
    rule: &Rule,
    names: &[&str],
    want: Answer,
) -> Result<(), Fail> {
    if told_by(rt, alloc, rule, names)? != want {
        return Err(Fail::new("another answer"));
    }
    Ok(())
}

/// A set of an absent name moves its object to the class after.
#[test]
fn sets_by_other_tables(rt: HostRuntime) -> Result<(), Fail> {
    let alloc = rt.alloc();
    let rule = bound(&rt, alloc, &[], "set", "x", &["object", "7"])?;
    wants(&rt, alloc, &rule, &["x"], Answer::Holds(Some(0), Some(1)))?;
    wants(&rt, alloc, &rule, &["y"], Answer::Fails)?;
    wants(&rt, alloc, &rule, &[], Answer::Unseen)
}

/// Where the class itself contradicts, the class after need not be shown.
#[test]
fn sets_beside_a_name_by_other_tables(rt: HostRuntime) -> Result<(), Fail> {
    let alloc = rt.alloc();
    let rule = bound(&rt, alloc, &["y"], "set", "x", &["object", "7"])?;
    wants(
        &rt,
        alloc,
        &rule,
        &["z", "x"],
        Answer::Holds(Some(1), Some(2)),
    )?;
    wants(&rt, alloc, &rule, &["y", "z"], Answer::Fails)?;
    wants(&rt, alloc, &rule, &["x"], Answer::Fails)?;
    wants(&rt, alloc, &rule, &["y"], Answer::Unseen)
}

#[test]
fn gets_by_other_tables(rt: HostRuntime) -> Result<(), Fail> {
    let alloc = rt.alloc();
    let rule = bound(&rt, alloc, &["x"], "get", "x", &["object"])?;
    wants(&rt, alloc, &rule, &["x", "y"], Answer::Holds(Some(1), None))?;
    wants(&rt, alloc, &rule, &["y"], Answer::Fails)?;
    wants(&rt, alloc, &rule, &[], Answer::Unseen)
}

#[test]
fn deletes_by_other_tables(rt: HostRuntime) -> Result<(), Fail> {
    let alloc = rt.alloc();
    let rule = bound(&rt, alloc, &["x", "y"], "delete", "y", &["object"])?;
    wants(
        &rt,
        alloc,
        &rule,
        &["z", "y"],
        Answer::Holds(Some(2), Some(1)),
    )?;
    wants(&rt, alloc, &rule, &["y", "x"], Answer::Fails)?;
    wants(&rt, alloc, &rule, &["x"], Answer::Unseen)
}

#[test]
fn deletes_of_the_first_by_other_tables(rt: HostRuntime) -> Result<(), Fail> {
    let alloc = rt.alloc();
    let rule = bound(&rt, alloc, &["x", "y"], "delete", "x", &["object"])?;
    wants(&rt, alloc, &rule, &["x", "y", "z"], Answer::Fails)?;
    wants(&rt, alloc, &rule, &["x", "y"], Answer::Unseen)
}

/// What claims nothing of a class that may be unseen holds by every table.
#[test]
fn claims_that_no_table_contradicts(rt: HostRuntime) -> Result<(), Fail> {
    let alloc = rt.alloc();
    let get = bound(&rt, alloc, &[], "get", "x", &["object"])?;
    wants(&rt, alloc, &get, &[], Answer::Holds(Some(0), None))?;
    let add = bound(&rt, alloc, &[], "add", "", &["7", "7"])?;
    wants(&rt, alloc, &add, &[], Answer::Holds(None, None))
}

/// The table over which a rule was bound shows the classes that it names.
fn told_at_home(
    rt: &impl Wait,
    alloc: Global,
    names: &[&str],
    word: &str,
    name: &str,
    on: &[&str],
) -> Result<Answer, Fail> {
    let table = ClassTable::new(alloc)?;
    let mut pass = table.pass(alloc)?;
    let class = class_of(rt, &table, &mut pass, names)?;
    let language = Script::make(functions(alloc, &[])?);
    let binder = binder(alloc, word, name, arguments(on))?;
    let operands = operands(alloc, on)?;
    let mut binds = Binds { count: 0 };
    let mut cx = BindContext {
        table: &table,
        pass: &mut pass,
    };
    let rule = rule_for(
        rt, alloc, &language, &mut binds, &mut cx, &class, &binder, &operands,
    )?;
    Ok(told(claim_holds(&rule, &table, &language.functions)))
}

#[test]
fn claims_by_their_own_table(rt: HostRuntime) -> Result<(), Fail> {
    let alloc = rt.alloc();
    let set = told_at_home(&rt, alloc, &[], "set", "x", &["object", "7"])?;
    assert!(rt; set == Answer::Holds(Some(0), Some(1)));
    let delete = told_at_home(&rt, alloc, &["x", "y"], "delete", "x", &["object"])?;
    assert!(rt; delete == Answer::Holds(Some(2), Some(3)));
    let get = told_at_home(&rt, alloc, &["x", "y"], "get at", "", &["object", "y"])?;
    assert!(rt; get == Answer::Holds(Some(2), None));
    Ok(())
}

/// What is answered of a call of function 0, which has two parameters, where it has these.
fn told_of_call(rt: &impl Wait, alloc: Global, parameters: &[&[&str]]) -> Result<Answer, Fail> {
    let rule = bound(rt, alloc, &[], "call", "", &["f", "7", "7"])?;
    let table = ClassTable::new(alloc)?;
    let funs = functions(alloc, parameters)?;
    Ok(told(claim_holds(&rule, &table, &funs)))
}

#[test]
fn claims_of_functions(rt: HostRuntime) -> Result<(), Fail> {
    let alloc = rt.alloc();
    let same = told_of_call(&rt, alloc, &[&["a", "b"]])?;
    assert!(rt; same == Answer::Holds(None, None));
    let other = told_of_call(&rt, alloc, &[&["a", "c"]])?;
    assert!(rt; other == Answer::Fails);
    let fewer = told_of_call(&rt, alloc, &[&["a"]])?;
    assert!(rt; fewer == Answer::Fails);
    let none = told_of_call(&rt, alloc, &[])?;
    assert!(rt; none == Answer::Fails);
    Ok(())
}
