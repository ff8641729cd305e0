//! What no clause says: which index a publication has, that each finished one is found, and that threads share cells
//! and tokens.
ghost use Rattle.std.specs.Prelude.{IfSome};
ghost use Rattle.rule_cells.specs.Cells.{IsKnownOf};

use crate::{Cells, Known};
use std::alloc::{AllocError, Global};
use std::sync::Wait;
use std::test::Fail;
use std::thread;

// Publishes the rules from `first` on, and says how many were taken.
fn publish_run(rt: &impl Wait, cells: &Cells<u32>, first: u32, count: u32) -> u32 {
    let mut taken = 0u32;
    for step in 0..count {
        if cells.publish(rt, first.wrapping_add(step)).is_ok() {
            taken = taken.saturating_add(1);
        }
    }
    taken
}

// A token of a rule, once it was published.
fn published(rt: &impl Wait, cells: &Cells<u32>, rule: u32) -> Option<Known<u32>>
    ensures { IfSome result (IsKnownOf cells.now) }
{
    cells.publish(rt, rule).ok()
}

// The rule of a token that is given away.
fn rule_shown(cells: &Cells<u32>, known: Known<u32>) -> u32
    requires { IsKnownOf cells.now known }
{
    *cells.show(&known)
}

// The rules at the indexes below `end`, up to the first that shows none.
fn rules_below(alloc: Global, cells: &Cells<u32>, end: u64) -> Result<Vec<u32>, AllocError> {
    let mut rules = Vec::new(alloc);
    for index in 0..end {
        let Some(known) = cells.look(index) else {
            break;
        };
        rules.push(*cells.show(&known))?;
    }
    Ok(rules)
}

#[test]
fn each_publication_is_found(rt: HostRuntime) -> Result<(), Fail> {
    let cells: Cells<u32> = Cells::new(rt.alloc())?;
    assert!(rt; cells.look(0).is_none());
    let first = published(&rt, &cells, 0).expect(&rt, "memory");
    let second = published(&rt, &cells, 1).expect(&rt, "memory");
    let copy = first.again();
    assert_eq!(rt; (first.index(), second.index(), copy.index()), (0, 1, 0));
    assert_eq!(rt; (*cells.show(&second), rule_shown(&cells, copy)), (1, 0));
    assert_eq!(rt; publish_run(&rt, &cells, 2, 98), 98);
    let rules = rules_below(rt.alloc(), &cells, 101)?;
    assert_eq!(rt; rules.len(), 100);
    for (index, rule) in rules.iter().enumerate() {
        assert_eq!(rt; *rule as usize, index);
    }
    for index in [100, 101, u64::MAX] {
        assert!(rt; cells.look(index).is_none());
    }
    Ok(())
}

#[test]
fn threads_publish_and_find(rt: HostRuntime) -> Result<(), Fail> {
    let cells: Cells<u32> = Cells::new(rt.alloc())?;
    let alloc = rt.alloc();
    let (first, second) = thread::join(
        &rt,
        || published(&rt, &cells, 0),
        || published(&rt, &cells, 1),
    );
    let (first, second) = (first.expect(&rt, "memory"), second.expect(&rt, "memory"));
    let copy = first.again();
    let (moved, lent) = thread::join(&rt, || rule_shown(&cells, second), || *cells.show(&first));
    assert_eq!(rt; (moved, lent, rule_shown(&cells, copy)), (1, 0, 0));
    let taken = thread::join(
        &rt,
        || publish_run(&rt, &cells, 2, 49),
        || publish_run(&rt, &cells, 51, 49),
    );
    assert_eq!(rt; taken, (49, 49));
    let (one, other) = thread::join(
        &rt,
        || rules_below(alloc, &cells, 101),
        || rules_below(alloc, &cells, 101),
    );
    let (mut one, other) = (one?, other?);
    assert!(rt; one == other);
    one.sort()?;
    assert_eq!(rt; one.len(), 100);
    for (place, rule) in one.iter().enumerate() {
        assert_eq!(rt; *rule as usize, place);
    }
    Ok(())
}
