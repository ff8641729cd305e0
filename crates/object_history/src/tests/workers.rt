//! Threads that take turns on one object, each with a pass of its own.
ghost use Rattle.std.specs.Prelude.{◌≡◌, ◌<◌, [], All, IfOk, length};
ghost use Rattle.expando_class.specs.Pass.{IsPassOf as IsClassPassOf};
ghost use Rattle.object_history.specs.Histories.{tag_with, whole_tag_of};
ghost use Rattle.object_history.specs.RowProps.{class_prop};
ghost use Rattle.object_history.specs.Rows.{idles_of, journal_of, table_of, tag_of};
ghost use Rattle.turn_rows.specs.Passes.{IsPassOf, IsSamePass, kept_of, log_of, row_count, tag_state};

use super::actions::{Action, binders_of};
use super::operate::operate;
use crate::{EntryHead, ObjectRow, RowTag};
use dyn_value::Entry;
use expando_class::{ClassPass, ClassTable};
use std::alloc::{AllocError, Global};
use std::sync::Wait;
use std::test::Fail;
use std::thread;
use std::thread::Threads;
use turn_rows::{RowPass, Rows, Step};

/// How many turns each thread takes.
pub(super) const TURNS: u32 = 1_000;

/// Of how many names there are members.
pub(super) const NAMES: u16 = 3;

/// What a thread does to the object: it sets, reads and removes the members of a few names, one after the other.
#[derive(Drop)]
struct Worker<'a, 'p, R> {
    rt: &'a R,
    alloc: Global,
    table: &'a ClassTable,
    classes: ClassPass,
    tag: RowTag<'p>,
    number: u32,
    turn: u32,
    ghost own: { IsClassPassOf table.now classes } by { λ p q i number class at.
        class_prop table.now class (p number class at) (q number class at) i },
}

impl<'a, 'p, R: Wait> Step<ObjectRow<'p>> for Worker<'a, 'p, R> {
    ghost on = { λ w. tag_with w.tag w.table.now };

    ghost number = { λ w. w.number };

    ghost then = { λ w x w' y. (tag_with w'.tag w'.table.now ≡ tag_with w.tag w.table.now) × (w'.number ≡ w.number) };

    fn run(&mut self, state: &mut ObjectRow<'p>) {
        let turn = self.turn;
        self.turn = turn.wrapping_add(1);
        let action = action_in(turn);
        let head = EntryHead {
            pass: self.number,
            task: turn,
            binder: action.binder(name_in(turn)),
        };
        let outcome = operate(
            self.rt,
            self.alloc,
            self.table,
            &mut self.classes,
            self.tag.binders,
            state,
            head,
            action.value(),
        );
        if outcome.is_err() {
            state.idle();
        }
    }
}

/// The action of a turn.
fn action_in(turn: u32) -> Action {
    match turn % 6 {
        0 | 2 => Action::Set(i64::from(turn)),
        4 => Action::Delete,
        _ => Action::Get,
    }
}

/// The number of the name in a turn.
fn name_in(turn: u32) -> u16 {
    ((turn / 6) % u32::from(NAMES)) as u16
}

/// The turns of one thread on the one object, and what it knows of the rows.
#[derive(Drop)]
struct Shift<'a, 'p, R> {
    rt: &'a R,
    alloc: Global,
    table: &'a ClassTable,
    tag: RowTag<'p>,
    rows: &'a Rows<ObjectRow<'p>>,
    pass: RowPass<ObjectRow<'p>>,
}

/// Takes the turns. Where no memory is left for the worker, it takes none.
fn work<'p, R: Wait>(shift: Shift<'_, 'p, R>) -> RowPass<ObjectRow<'p>>
    requires own { IsPassOf shift.rows.now shift.pass }
    requires fresh { (log_of shift.pass).calls ≡ 0 }
    requires row { 0 < row_count shift.rows.now }
    requires tag { tag_with shift.tag shift.table.now ≡ whole_tag_of (tag_state shift.rows.now) }
    ensures own { IsPassOf shift.entry.rows.now result }
    ensures same { IsSamePass shift.entry.pass result }
{
    let Shift {
        rt,
        alloc,
        table,
        tag,
        rows,
        mut pass,
    } = shift;
    let Ok(mut worker) = worker_of(rt, alloc, table, tag, pass.number()) else {
        return pass;
    };
    for _turn in 0..TURNS {
        rows.turn(rt, &mut pass, 0, &mut worker);
    }
    pass
}

/// What the passes of two shifts are after their turns, each shift in a thread of its own.
fn work_beside<'a, 'p, R: Threads + Wait + Sync>(
    rt: &R,
    first: Shift<'a, 'p, R>,
    second: Shift<'a, 'p, R>,
) -> (RowPass<ObjectRow<'p>>, RowPass<ObjectRow<'p>>)
    requires first { IsPassOf first.rows.now first.pass × ((log_of first.pass).calls ≡ 0)
        × (0 < row_count first.rows.now)
        × (tag_with first.tag first.table.now ≡ whole_tag_of (tag_state first.rows.now)) }
    requires second { IsPassOf second.rows.now second.pass × ((log_of second.pass).calls ≡ 0)
        × (0 < row_count second.rows.now)
        × (tag_with second.tag second.table.now ≡ whole_tag_of (tag_state second.rows.now)) }
    ensures first { IsPassOf first.entry.rows.now result.0 × IsSamePass first.entry.pass result.0 }
    ensures second { IsPassOf second.entry.rows.now result.1 × IsSamePass second.entry.pass result.1 }
{
    thread::join(rt, move || work(first), move || work(second))
}

/// The journal of the one object after the turns of two threads.
pub(super) fn work_together<R: Threads + Wait + Sync>(
    rt: &R,
    alloc: Global,
) -> Result<Vec<Entry>, Fail> {
    let binders = binders_of(alloc, NAMES)?;
    let tag = RowTag {
        binders: &binders,
        functions: 0,
        limit: 1,
    };
    let table = ClassTable::new(alloc)?;
    let (rows, mut pass) = new_rows(alloc, tag, &table)?;
    let other = rows.split(&mut pass);
    let first = Shift {
        rt,
        alloc,
        table: &table,
        tag,
        rows: &rows,
        pass,
    };
    let second = Shift {
        rt,
        alloc,
        table: &table,
        tag,
        rows: &rows,
        pass: other,
    };
    let (mut pass, other) = work_beside(rt, first, second);
    rows.join(&mut pass, other);
    let row = rows.close(pass).pop().ok_or("no row")?;
    Ok(row.into_journal())
}

/// Rows with one object, on which nothing was done, and their first pass.
fn new_rows<'p>(
    alloc: Global,
    tag: RowTag<'p>,
    table: &ClassTable,
) -> Result<(Rows<ObjectRow<'p>>, RowPass<ObjectRow<'p>>), AllocError>
    ensures own { IfOk result (λ r. IsPassOf r.0 r.1) }
    ensures first { IfOk result (λ r. ((log_of r.1).number ≡ 0) × ((log_of r.1).made ≡ 1) × ((log_of r.1).calls ≡ 0)) }
    ensures alone { IfOk result (λ r. kept_of r.1 ≡ []) }
    ensures row { IfOk result (λ r. 0 < row_count r.0) }
    ensures tag { IfOk result (λ r. tag_with tag.entry table.now ≡ whole_tag_of (tag_state r.0)) }
{
    let states = vec![in alloc; ObjectRow::new(alloc, tag, table)]?;
    let (rows, pass) = Rows::new(alloc, states, 0)?;
    Ok((rows, pass))
}

/// A worker that has done nothing, for the pass of this number.
fn worker_of<'a, 'p, R>(
    rt: &'a R,
    alloc: Global,
    table: &'a ClassTable,
    tag: RowTag<'p>,
    number: u32,
) -> Result<Worker<'a, 'p, R>, AllocError>
    ensures tag { IfOk result (λ w. w.tag ≡ tag.entry) }
    ensures table { IfOk result (λ w. w.table.now ≡ table.now) }
    ensures number { IfOk result (λ w. w.number ≡ number) }
{
    Ok(Worker {
        rt,
        alloc,
        table,
        classes: table.pass(alloc)?,
        tag,
        number,
        turn: 0,
    })
}
