//! How long turns and locks take.
ghost use Rattle.std.specs.Prelude.{◌<◌, ◌≤◌};

use crate::counter::{Counter, new_counters, new_passes, take_locks, take_turns};
use std::alloc::Global;
use std::sync::{Mutex, Wait};
use std::thread::Threads;
use std::time::{Clock, Duration, Instant};
use std::{io, thread};
use turn_rows::Rows;

const ROWS: usize = 8;

/// Nanoseconds for each of so many turns.
fn share(time: Duration, turns: u64) -> u128 {
    time.as_nanos() / u128::from(turns.max(1))
}

/// Of a thread's turns on a row of its own, or of all threads' turns on one row.
pub fn time_turns<R: Threads + Wait + Clock + Sync>(
    rt: &R,
    alloc: Global,
    threads: usize,
    turns: u32,
    own: bool,
) -> io::Result<u128>
    requires { (0 < threads) × (threads ≤ 8) }
{
    let (rows, first) = Rows::new(alloc, new_counters(alloc, ROWS)?, 0)?;
    let mut passes = new_passes(alloc, &rows, first, threads)?;
    let start = Instant::now(rt)?;
    thread::for_each_mut(
        rt,
        passes.as_mut_slice(),
        threads,
        &|place, pass| {
            let row = if own { (place % ROWS) as u32 } else { 0 };
            take_turns(rt, &rows, pass, row, turns)
        },
    );
    let time = start.elapsed(rt)?;
    let together = if own { 1 } else { threads as u64 };
    Ok(share(time, together * u64::from(turns)))
}

/// Of all threads' turns under one lock.
pub fn time_mutex<R: Threads + Wait + Clock + Sync>(
    rt: &R,
    alloc: Global,
    threads: usize,
    turns: u32,
) -> io::Result<u128>
    requires { (0 < threads) × (threads ≤ 8) }
{
    let lock = Mutex::new(Counter::new());
    let mut hands = Vec::from_elem(alloc, 0u64, threads)?;
    let start = Instant::now(rt)?;
    thread::for_each_mut(
        rt,
        hands.as_mut_slice(),
        threads,
        &|_, _| { take_locks(rt, &lock, turns) },
    );
    let time = start.elapsed(rt)?;
    Ok(share(time, threads as u64 * u64::from(turns)))
}
