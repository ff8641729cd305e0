//! The trees of sets, what a merge refuses, and that sets may be shared by threads.
ghost use Rattle.std.specs.Prelude.{◌≡◌, ◌∷◌, [], IfOk};

use crate::{MergeRefused, Restriction, Restrictions};
use dyn_value::{DynText, Kind};
use std::alloc::{AllocError, Global};
use std::test::Fail;
use std::thread;

fn text(alloc: Global, characters: &str) -> Result<DynText, Fail> {
    Ok(DynText::from_str(alloc, characters)?.ok_or("too long")?)
}

/// One restriction of each form.
fn one_of_each(alloc: Global) -> Result<Restrictions, Fail> {
    let text = text(alloc, "k")?;
    let mut all = Restrictions::kind(alloc, 0, Kind::Int)?;
    let others = [
        Restrictions::instance(alloc, Restriction::Fun(0, 2))?,
        Restrictions::instance(alloc, Restriction::Key(1, text))?,
        Restrictions::expression(alloc, Restriction::LongKey(16))?,
        Restrictions::expression(alloc, Restriction::Class(4))?,
    ];
    for other in others {
        all = merged(all, other)?;
    }
    Ok(all)
}

fn merged(first: Restrictions, second: Restrictions) -> Result<Restrictions, Fail> {
    match first.merge(second) {
        Ok(all) => Ok(all),
        Err(MergeRefused::TooMany(_, _)) => Err(Fail::new("too many")),
        Err(MergeRefused::Memory(_, _)) => Err(Fail::new("memory")),
    }
}

/// The restrictions that the first operands, `count` of them, have this kind.
fn kinds(alloc: Global, kind: Kind, count: u8) -> Result<Restrictions, Fail> {
    let mut all = Restrictions::empty(alloc);
    for operand in 0..count.min(16) {
        all = merged(all, Restrictions::kind(alloc, operand, kind)?)?;
    }
    Ok(all)
}

/// The text of the test that all hold.
fn printed(alloc: Global, restrictions: &Restrictions) -> Result<Vec<u8>, Fail> {
    let mut out = Vec::new(alloc);
    restrictions.to_tree(alloc)?.print_to(&mut out)?;
    Ok(out)
}

/// The kinds of the target and of the first argument.
fn two_kinds(alloc: Global, target: Kind, argument: Kind) -> Result<Restrictions, AllocError>
    ensures { IfOk result (λ rs. rs ≡ Restriction.Kind 0 target ∷ Restriction.Kind 1 argument ∷ []) }
{
    Restrictions::kind(alloc, 0, target)?.and(Restriction::Kind(1, argument))
}

/// The kind of the target, the class, and the text that is the first argument.
fn kind_class_and_key(
    alloc: Global,
    target: Kind,
    class: u128,
    key: DynText,
) -> Result<Restrictions, AllocError>
    ensures { IfOk result (λ rs.
        rs ≡ Restriction.Kind 0 target ∷ Restriction.Class class ∷ Restriction.Key 1 key ∷ []) }
{
    Restrictions::kind(alloc, 0, target)?
        .and(Restriction::Class(class))?
        .and(Restriction::Key(1, key))
}

#[test]
fn trees_of_two_and_three(rt: HostRuntime) -> Result<(), Fail> {
    let alloc = rt.alloc();
    let sets = [
        (
            two_kinds(alloc, Kind::Int, Kind::Text)?,
            "(and (kind 0 Int) (kind 1 Text))",
        ),
        (
            Restrictions::kind(alloc, 0, Kind::Obj)?.and(Restriction::Class(4))?,
            "(and (kind 0 Obj) (class 4))",
        ),
        (
            Restrictions::kind(alloc, 0, Kind::Obj)?.and(Restriction::LongKey(1))?,
            "(and (kind 0 Obj) (long 1))",
        ),
        (
            Restrictions::kind(alloc, 0, Kind::Fun)?.and(Restriction::Fun(0, 2))?,
            "(and (kind 0 Fun) (fun 0 2))",
        ),
        (
            kind_class_and_key(alloc, Kind::Obj, 4, text(alloc, "k")?)?,
            "(and (and (kind 0 Obj) (class 4)) (key 1 \"k\"))",
        ),
    ];
    for (restrictions, want) in sets {
        assert!(rt; printed(alloc, &restrictions)?.as_slice() == want.as_bytes());
    }
    Ok(())
}

/// A set is read by two threads at once, and moves into one.
#[test]
fn sets_between_threads(rt: HostRuntime) -> Result<(), Fail> {
    let all = one_of_each(rt.alloc())?;
    let (one, other) = thread::join(&rt, || all.items().len(), || all.items().len());
    assert_eq!(rt; (one, other), (5, 5));
    let (moved, _) = thread::join(&rt, move || all.items().len(), || ());
    assert_eq!(rt; moved, 5);
    Ok(())
}

#[test]
fn trees(rt: HostRuntime) -> Result<(), Fail> {
    let alloc = rt.alloc();
    let all = one_of_each(alloc)?;
    assert!(rt;
        printed(alloc, &all)?.as_slice()
            == b"(and (and (and (and (kind 0 Int) (fun 0 2)) (key 1 \"k\")) (long 16)) (class 4))".as_slice()
    );
    assert!(rt;
        printed(alloc, &Restrictions::empty(alloc))?.as_slice() == b"(const true)".as_slice()
    );

    // The same restrictions again add none.
    let again = merged(all, one_of_each(alloc)?)?;
    assert!(rt; again.items().len() == 5);
    let kind = Restrictions::kind(alloc, 0, Kind::Int)?;
    let twice = merged(kind, Restrictions::kind(alloc, 0, Kind::Int)?)?;
    assert!(rt; printed(alloc, &twice)?.as_slice() == b"(kind 0 Int)".as_slice());
    Ok(())
}

#[test]
fn too_many(rt: HostRuntime) -> Result<(), Fail> {
    let alloc = rt.alloc();
    let full = merged(kinds(alloc, Kind::Text, 16)?, kinds(alloc, Kind::Text, 9)?)?;
    assert!(rt; full.items().len() == 16);
    match kinds(alloc, Kind::Text, 9)?.merge(kinds(alloc, Kind::Int, 9)?) {
        Err(MergeRefused::TooMany(first, second)) => {
            assert!(rt;
                printed(alloc, &first)?.as_slice()
                    == printed(alloc, &kinds(alloc, Kind::Text, 9)?)?.as_slice()
            );
            assert!(rt;
                printed(alloc, &second)?.as_slice()
                    == printed(alloc, &kinds(alloc, Kind::Int, 9)?)?.as_slice()
            );
        }
        _ => return Err(Fail::new("merged")),
    }
    Ok(())
}
