//! Two threads, each in a turn of its own row until the other is in its turn too.
ghost use Rattle.std.specs.Prelude.{◌≡◌, ◌<◌};
ghost use Rattle.turn_rows.specs.Passes.{IsPassOf, log_of, row_count};

use super::tally::{Tally, new_tallies};
use crate::{RowPass, Rows, Step};
use std::alloc::{AllocError, Global};
use std::hint::spin_loop;
use std::sync::Wait;
use std::sync::atomic::{AtomicBool, Ordering};
use std::thread;
use std::thread::{Threads, yield_now};

/// How often a step tries before it is late.
const TRIES: u32 = 50_000_000;

/// Marks its row, and tries until the other one is marked.
struct Meet<'a> {
    number: u32,
    here: &'a AtomicBool,
    there: &'a AtomicBool,
    met: bool,
}

impl Step<Tally> for Meet<'_> {
    ghost on = { λ _. tt };

    ghost number = { λ s. s.number };

    ghost then = { λ s x s' y. Unit {0} };

    fn run(&mut self, state: &mut Tally) {
        self.here.store(true, Ordering::SeqCst);
        for tries in 0..TRIES {
            if self.there.load(Ordering::SeqCst) {
                self.met = true;
                break;
            }
            if tries % 64 == 63 {
                yield_now();
            } else {
                spin_loop();
            }
        }
        state.count += 1;
    }
}

/// Whether the other thread was in its turn while this one was.
fn meets<R: Wait>(
    rt: &R,
    rows: &Rows<Tally>,
    mut pass: RowPass<Tally>,
    row: u32,
    here: &AtomicBool,
    there: &AtomicBool,
) -> bool
    requires { IsPassOf rows.now pass × ((log_of pass).calls ≡ 0) × (row < row_count rows.now) }
{
    let mut step = Meet {
        number: pass.number(),
        here,
        there,
        met: false,
    };
    rows.turn(rt, &mut pass, row, &mut step);
    let Meet {
        number: _,
        here: _,
        there: _,
        met,
    } = step;
    met
}

pub(super) fn meet_in_two_rows<R: Threads + Wait + Sync>(
    rt: &R,
    alloc: Global,
) -> Result<(bool, bool), AllocError> {
    let (rows, mut first) = Rows::new(alloc, new_tallies(alloc, 2, 0)?, 0)?;
    let second = rows.split(&mut first);
    let (north, south) = (AtomicBool::new(false), AtomicBool::new(false));
    Ok(thread::join(
        rt,
        || meets(rt, &rows, first, 0, &north, &south),
        || meets(rt, &rows, second, 1, &south, &north),
    ))
}
