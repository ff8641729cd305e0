//! What no clause says: that operations on members are had, what their answers and the journal's entries are, and that
//! threads share an object. Expected answers are worked out by hand, or on a plain list of names and values.
mod actions;
mod member_rule;
mod operate;
mod plain;
mod scripts;
mod workers;

use crate::{ObjectRow, RowTag};
use actions::{Answer, answer_of, binders_of};
use expando_class::ClassTable;
use plain::replayed;
use scripts::{are_left, is_entry, play, script};
use std::test::Fail;
use workers::{TURNS, work_together};

/// Each operation on members, where the member is there and where it is not, and where there is no room for it.
#[test]
fn operations_of_one_object(rt: HostRuntime) -> Result<(), Fail> {
    let alloc = rt.alloc();
    let binders = binders_of(alloc, 65)?;
    let tag = RowTag {
        binders: &binders,
        functions: 0,
        limit: 1,
    };
    let table = ClassTable::new(alloc)?;
    let mut classes = table.pass(alloc)?;
    let mut row = ObjectRow::new(alloc, tag, &table);
    let cases = script(alloc)?;
    let outcomes = play(&rt, alloc, &table, &mut classes, &binders, &mut row, &cases)?;
    assert_eq!(rt; cases.len(), 81);
    assert_eq!(rt; outcomes.len(), 81);
    assert_eq!(rt; row.entry_count(), 81);
    for (number, (case, outcome)) in cases.iter().zip(outcomes.iter()).enumerate() {
        assert!(rt; answer_of(outcome) == Some(case.answer), "at {number}");
    }
    assert!(rt; are_left(alloc, &table, &row)?);
    let journal = row.into_journal();
    assert_eq!(rt; journal.len(), 81);
    for (number, (case, entry)) in cases.iter().zip(journal.iter()).enumerate() {
        assert!(rt; is_entry(number, case, entry), "at {number}");
    }
    Ok(())
}

/// Two threads take turns on one object; a plain list gives what each entry of the journal says.
#[test]
fn two_threads_on_one_object(rt: HostRuntime) -> Result<(), Fail> {
    let alloc = rt.alloc();
    let journal = work_together(&rt, alloc)?;
    assert_eq!(rt; journal.len(), 2 * TURNS as usize);
    for pass in 0..2u32 {
        let count = journal.iter().filter(|entry| entry.pass == pass).count();
        assert_eq!(rt; count, TURNS as usize);
    }
    assert_eq!(rt; replayed(alloc, &journal)?, journal.len());
    Ok(())
}
