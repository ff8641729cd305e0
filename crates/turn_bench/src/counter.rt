//! A counter behind turns, and one behind a lock.
ghost use Rattle.std.specs.Prelude.{◌≡◌, ℕ, ◌<◌, ◌≤◌, [], All, IfOk, length};
ghost use Rattle.turn_rows.specs.Passes.{IsPassOf, log_of, row_count};

use std::alloc::{AllocError, Global};
use std::sync::{Mutex, Wait};
use turn_rows::{Held, RowPass, Rows, Step};

/// A count in as many bytes as an object's row takes, so that no two counts share a line of cache.
#[derive(Drop)]
pub struct Counter {
    count: u64,
    rest: [u64; 15],
}

impl Counter {
    pub fn new() -> Counter
        ensures { result.count ≡ 0 }
    {
        Counter {
            count: 0,
            rest: [0; 15],
        }
    }
}

impl Held for Counter {
    type Entry = ();

    type Tag = ();

    ghost entries = { λ _. [] };

    ghost by = { λ _. 0 };

    ghost turns = { λ c. c.count };

    ghost tag = { λ _. tt };

    ghost mark = { λ _. 0 };
}

/// One more.
#[derive(Drop)]
struct Bump {
    number: u32,
}

impl Step<Counter> for Bump {
    ghost on = { λ _. tt };

    ghost number = { λ s. s.number };

    ghost then = { λ s x s' y. s'.number ≡ s.number };

    fn run(&mut self, state: &mut Counter) {
        state.count += 1;
    }
}

pub fn new_counters(alloc: Global, rows: usize) -> Result<Vec<Counter>, AllocError>
    ensures len { IfOk result (λ v. length v.items ≡ rows) }
    ensures new { IfOk result (λ v. All (λ c. c.count ≡ 0) v.items) }
{
    let mut counters = Vec::with_capacity(alloc, rows)?;
    for _row in 0..rows {
        counters.push_reserved(Counter::new());
    }
    Ok(counters)
}

/// So many passes, the first one among them.
pub fn new_passes(
    alloc: Global,
    rows: &Rows<Counter>,
    mut first: RowPass<Counter>,
    count: usize,
) -> Result<Vec<RowPass<Counter>>, AllocError>
    requires own { IsPassOf rows.now first × ((log_of first).number ≡ 0) × ((log_of first).made ≡ 1) × ((log_of first).calls ≡ 0) }
    requires few { (0 < count) × (count ≤ 8) }
    ensures { IfOk result (λ v. All (λ p. IsPassOf rows.now p × ((log_of p).calls ≡ 0)) v.items) }
{
    let mut passes = Vec::with_capacity(alloc, count)?;
    for _made in 1..count {
        passes.push_reserved(rows.split(&mut first));
    }
    passes.push_reserved(first);
    Ok(passes)
}

pub fn take_turns<R: Wait>(
    rt: &R,
    rows: &Rows<Counter>,
    pass: &mut RowPass<Counter>,
    row: u32,
    turns: u32,
)
    requires { IsPassOf rows.now pass.old × ((log_of pass.old).calls ≡ 0) × (row < row_count rows.now) }
{
    let mut step = Bump {
        number: pass.number(),
    };
    for _turn in 0..turns {
        rows.turn(rt, pass, row, &mut step);
    }
}

pub fn take_locks<R: Wait>(rt: &R, lock: &Mutex<Counter>, turns: u32) {
    for _turn in 0..turns {
        let mut counter = lock.lock(rt);
        counter.count = counter.count.wrapping_add(1);
    }
}
