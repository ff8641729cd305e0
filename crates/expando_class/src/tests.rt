//! What no clause says: which number a new class gets, that each class is shown, and that threads may add at once.
ghost use Rattle.std.specs.Prelude.{IfSome};
ghost use Rattle.expando_class.specs.Class.{IsClassOf};
ghost use Rattle.expando_class.specs.Pass.{IsPassOf};

use crate::{ClassPass, ClassRef, ClassTable};
use std::alloc::{AllocError, Global};
use std::sync::Wait;
use std::test::Fail;
use std::thread;

// More classes than a table has room for at first.
const MANY: u128 = 150;

// The class with a name more, if it may be added.
fn with_name(
    rt: &impl Wait,
    table: &ClassTable,
    pass: &mut ClassPass,
    class: &ClassRef,
    name: &str,
) -> Option<ClassRef>
    requires pass { IsPassOf table.now pass.old }
    requires of { IsClassOf table.now class.now }
    ensures pass { IsPassOf table.now pass.new }
    ensures of { IfSome result (IsClassOf table.now) }
{
    if table.place_of(class, name).is_some() || table.size(class) >= 64 || name.len() > 64 {
        return None;
    }
    table.add(rt, pass, class, name).ok()
}

// The class without the name at a place, if there is one.
fn without_place(
    rt: &impl Wait,
    table: &ClassTable,
    pass: &mut ClassPass,
    class: &ClassRef,
    place: u16,
) -> Option<ClassRef>
    requires pass { IsPassOf table.now pass.old }
    requires of { IsClassOf table.now class.now }
    ensures pass { IsPassOf table.now pass.new }
    ensures of { IfSome result (IsClassOf table.now) }
{
    if place >= table.size(class) {
        return None;
    }
    table.remove(rt, pass, class, place).ok()
}

// Whether the class has these names.
fn has_names(table: &ClassTable, class: &ClassRef, names: &[&str]) -> bool
    requires { IsClassOf table.now class.now }
{
    if usize::from(table.size(class)) != names.len() {
        return false;
    }
    for (place, name) in names.iter().enumerate() {
        if table.place_of(class, name).map(usize::from) != Some(place) {
            return false;
        }
    }
    true
}

// Whether the pass knows this class by its number.
fn knows(table: &ClassTable, pass: &ClassPass, class: &ClassRef) -> bool
    requires pass { IsPassOf table.now pass.now }
    requires of { IsClassOf table.now class.now }
{
    match pass.known(class.number()) {
        Some(known) => table.same(&known, class),
        None => false,
    }
}

// Whether the table shows this class by its number.
fn shows(table: &ClassTable, class: &ClassRef) -> bool
    requires { IsClassOf table.now class.now }
{
    match table.look(class.number()) {
        Some(shown) => table.same(&shown, class),
        None => false,
    }
}

// Adds x to the root in a pass of its own.
fn adds_x(rt: &impl Wait, alloc: Global, table: &ClassTable) -> Option<ClassRef>
    ensures { IfSome result (IsClassOf table.now) }
{
    let Ok(mut pass) = table.pass(alloc) else {
        return None;
    };
    with_name(rt, table, &mut pass, &table.root(), "x")
}

// Adds many classes of one name each to the root in a pass of its own. Whether the table shows each at once.
fn adds_many(rt: &impl Wait, alloc: Global, table: &ClassTable, kind: &str) -> Option<bool> {
    let Ok(mut pass) = table.pass(alloc) else {
        return None;
    };
    let root = table.root();
    let mut all_shown = true;
    for place in 0..MANY {
        let name = format!(in alloc; "{kind}_{place}").ok()?;
        let class = with_name(rt, table, &mut pass, &root, &name)?;
        all_shown &= shows(table, &class);
    }
    Some(all_shown)
}

// Whether the table shows so many classes of one name at the numbers after the root's.
fn shows_each(table: &ClassTable, count: u128) -> bool {
    for place in 0..count {
        let Some(class) = table.look(place + 1) else {
            return false;
        };
        if table.size(&class) != 1 {
            return false;
        }
    }
    true
}

#[test]
fn classes_have_numbers_and_lists(rt: HostRuntime) -> Result<(), Fail> {
    let table = ClassTable::new(rt.alloc())?;
    let mut pass = table.pass(rt.alloc())?;
    let root = table.root();
    let x = with_name(&rt, &table, &mut pass, &root, "x").ok_or("x")?;
    let xy = with_name(&rt, &table, &mut pass, &x, "y").ok_or("x y")?;
    let y = without_place(&rt, &table, &mut pass, &xy, 0).ok_or("y")?;
    let known = with_name(&rt, &table, &mut pass, &root, "y").ok_or("y again")?;
    assert_eq!(rt;
        (
            root.number(),
            x.number(),
            xy.number(),
            y.number(),
            known.number()
        ),
        (0, 1, 2, 3, 3)
    );
    assert!(rt; has_names(&table, &xy, &["x", "y"]) && has_names(&table, &known, &["y"]));
    assert!(rt; table.size(&xy) == 2);
    assert_eq!(rt; table.name_at(&xy, 1), "y");
    assert!(rt; table.same(&y, &known) && table.same(&xy, &xy.copy()) && !table.same(&x, &xy));
    assert!(rt; knows(&table, &pass, &y) && knows(&table, &pass, &root));
    assert!(rt; pass.known(4).is_none());
    assert!(rt; shows(&table, &xy) && shows(&table, &root));
    assert!(rt; table.look(4).is_none() && table.look(u128::MAX).is_none());
    Ok(())
}

#[test]
fn two_threads_add_one_list(rt: HostRuntime) -> Result<(), Fail> {
    let table = ClassTable::new(rt.alloc())?;
    let alloc = rt.alloc();
    let (one, other) = thread::join(
        &rt,
        || adds_x(&rt, alloc, &table),
        || adds_x(&rt, alloc, &table),
    );
    let (one, other) = (one.ok_or("one")?, other.ok_or("other")?);
    assert!(rt; has_names(&table, &one, &["x"]) && has_names(&table, &other, &["x"]));
    assert_eq!(rt;
        (
            one.number().min(other.number()),
            one.number().max(other.number())
        ),
        (1, 2)
    );
    assert!(rt; !table.same(&one, &other));
    assert!(rt; shows(&table, &one) && shows(&table, &other));
    Ok(())
}

#[test]
fn each_of_many_classes_is_shown_and_added_once(rt: HostRuntime) -> Result<(), Fail> {
    let table = ClassTable::new(rt.alloc())?;
    let mut pass = table.pass(rt.alloc())?;
    let root = table.root();
    for _round in 0..3 {
        for place in 0..MANY {
            let name = format!(in rt.alloc(); "name_{place}")?;
            let class = with_name(&rt, &table, &mut pass, &root, &name).ok_or("add")?;
            assert_eq!(rt; class.number(), place + 1);
            assert!(rt; shows(&table, &class));
            let emptied = without_place(&rt, &table, &mut pass, &class, 0).ok_or("remove")?;
            assert_eq!(rt; emptied.number(), 0);
        }
    }
    let more = with_name(&rt, &table, &mut pass, &root, "more").ok_or("more")?;
    assert_eq!(rt; more.number(), MANY + 1);
    assert!(rt; shows_each(&table, MANY + 1) && table.look(MANY + 2).is_none());
    Ok(())
}

#[test]
fn the_classes_of_other_threads_are_shown(rt: HostRuntime) -> Result<(), Fail> {
    let table = ClassTable::new(rt.alloc())?;
    let alloc = rt.alloc();
    let (one, other) = thread::join(
        &rt,
        || adds_many(&rt, alloc, &table, "one"),
        || adds_many(&rt, alloc, &table, "other"),
    );
    assert!(rt; one.ok_or("one")? && other.ok_or("other")?);
    assert!(rt; shows_each(&table, 2 * MANY) && table.look(2 * MANY + 1).is_none());
    Ok(())
}
