//! Passes of several threads that sign one row.
ghost use Rattle.std.specs.Prelude.{◌≡◌, ℕ, ◌+◌, ◌<◌, ◌≤◌, All, IfOk, length, slice_index_or, []};
ghost use Rattle.turn_rows.specs.declared.rows.RowPass.{RowPass};
ghost use Rattle.turn_rows.specs.declared.tests.tally.Tally.{Tally};
ghost use Rattle.turn_rows.specs.Passes.{IsPassOf, IsAlone, IsSamePass, HasAll, log_of, kept_of, logs_of, row_count};

use super::tally::{Sign, Tally, new_tallies};
use crate::{RowPass, Rows};
use std::alloc::{AllocError, Global};
use std::sync::Wait;
use std::thread;
use std::thread::Threads;

fn take_turns<R: Wait>(rt: &R, rows: &Rows<Tally>, pass: &mut RowPass<Tally>, turns: u32)
    requires { IsPassOf rows.now pass.old × ((log_of pass.old).calls ≡ 0) × (0 < row_count rows.now) }
    ensures { IsPassOf rows.now pass.new × IsSamePass pass.old pass.new }
{
    let mut step = Sign {
        number: pass.number(),
    };
    for _turn in 0..turns {
        rows.turn(rt, pass, 0, &mut step);
    }
}

fn in_front<R: Wait>(
    rt: &R,
    rows: &Rows<Tally>,
    mut pass: RowPass<Tally>,
    turns: u32,
) -> RowPass<Tally>
    requires { IsPassOf rows.now pass × ((log_of pass).calls ≡ 0) × (0 < row_count rows.now) }
    ensures { IsPassOf rows.now result × IsSamePass pass result }
{
    take_turns(rt, rows, &mut pass, turns);
    pass
}

/// The other passes' turns, each in a thread.
fn beside<R: Threads + Wait + Sync>(
    rt: &R,
    rows: &Rows<Tally>,
    mut passes: Vec<RowPass<Tally>>,
    turns: u32,
) -> Vec<RowPass<Tally>>
    requires own { All (λ p. IsPassOf rows.now p × ((log_of p).calls ≡ 0)) passes.items }
    requires row { 0 < row_count rows.now }
    ensures len { length result.items ≡ length passes.items }
    ensures each { (k : ℕ) (d : RowPass Tally) → k < length passes.items → IsPassOf rows.now (slice_index_or result.items k d) × IsSamePass (slice_index_or passes.items k d) (slice_index_or result.items k d) }
{
    let threads = passes.len();
    if threads > 0 {
        thread::for_each_mut(
            rt,
            passes.as_mut_slice(),
            threads,
            &|_, pass| { take_turns(rt, rows, pass, turns) },
        );
    }
    passes
}

fn split_others(
    alloc: Global,
    rows: &Rows<Tally>,
    first: &mut RowPass<Tally>,
    count: usize,
) -> Result<Vec<RowPass<Tally>>, AllocError>
    requires first { IsAlone rows.now 0 first.old × ((log_of first.old).made ≡ 1) × ((log_of first.old).calls ≡ 0) }
    requires few { count < 8 }
    ensures first { IsAlone rows.now 0 first.new × ((log_of first.new).calls ≡ 0) }
    ensures made { IfOk result (λ v. (log_of first.new).made ≡ length v.items + 1) }
    ensures fresh { IfOk result (λ v. All (λ p. IsPassOf rows.now p × ((log_of p).calls ≡ 0)) v.items) }
    ensures others { IfOk result (λ v. (k : ℕ) (d : RowPass Tally) → k < length v.items → IsAlone rows.now (k + 1) (slice_index_or v.items k d)) }
{
    let mut others = Vec::with_capacity(alloc, count)?;
    for _other in 0..count {
        others.push_reserved(rows.split(first));
    }
    Ok(others)
}

fn join_others(rows: &Rows<Tally>, first: &mut RowPass<Tally>, mut others: Vec<RowPass<Tally>>)
    requires first { IsAlone rows.now 0 first.old × ((log_of first.old).made ≡ length others.items + 1) }
    requires others { (k : ℕ) (d : RowPass Tally) → k < length others.items → IsAlone rows.now (k + 1) (slice_index_or others.items k d) }
    ensures { IsPassOf rows.now first.new × HasAll (logs_of first.new) }
{
    while let Some(other) = others.pop() {
        rows.join(first, other);
    }
}

/// The states after so many turns of so many passes in one row.
pub(super) fn sign_together<R: Threads + Wait + Sync>(
    rt: &R,
    alloc: Global,
    passes: u32,
    turns: u32,
) -> Result<Vec<Tally>, AllocError>
    requires passes { (0 < passes) × (passes ≤ 8) }
    requires turns { turns ≤ 10000 }
{
    let room = passes as usize * turns as usize;
    let (rows, mut first) = Rows::new(alloc, new_tallies(alloc, 1, room)?, 0)?;
    let others = split_others(alloc, &rows, &mut first, passes as usize - 1)?;
    let shared = &rows;
    let (others, mut first) = thread::join(
        rt,
        move || -> Vec<RowPass<Tally>>
            requires { All (λ p. IsPassOf shared.now p × ((log_of p).calls ≡ 0)) others.items × (0 < row_count shared.now) }
            ensures { (length result.items ≡ length others.items) × ((k : ℕ) (d : RowPass Tally) → k < length others.items → IsPassOf shared.entry.now (slice_index_or result.items k d) × IsSamePass (slice_index_or others.items k d) (slice_index_or result.items k d)) }
        { beside(rt, shared, others, turns) },
        move || in_front(rt, shared, first, turns),
    );
    join_others(&rows, &mut first, others);
    Ok(rows.close(first))
}
