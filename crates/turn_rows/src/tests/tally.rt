//! A state that is signed in each turn, and passes that draw.
ghost use Rattle.std.specs.Prelude.{◌≡◌, ℕ, ◌+◌, ◌<◌, ◌≤◌, All, IfOk, length, []};
ghost use mathlib.Core.Option.{some};
ghost use lib.ListN.{get_elem?};
ghost use Rattle.turn_rows.specs.Passes.{IsPassOf, log_of};

use crate::{Held, RowPass, Rows, Step};
use std::alloc::{AllocError, Global};
use std::thread;
use std::thread::Threads;

/// A state that counts its turns, with the numbers of the passes that signed it.
#[derive(Drop)]
pub(super) struct Tally {
    pub(super) signed: Vec<u32>,
    pub(super) count: u64,
}

impl Held for Tally {
    type Entry = u32;

    type Tag = ();

    ghost entries = { λ t. t.signed.items };

    ghost by = { λ e. e };

    ghost turns = { λ t. t.count };

    ghost tag = { λ _. tt };

    ghost mark = { λ _. 0 };
}

/// Signs while there is room.
#[derive(Drop)]
pub(super) struct Sign {
    pub(super) number: u32,
}

impl Step<Tally> for Sign {
    ghost on = { λ _. tt };

    ghost number = { λ s. s.number };

    ghost then = { λ s x s' y. s'.number ≡ s.number };

    fn run(&mut self, state: &mut Tally) {
        if state.signed.len() < state.signed.capacity() {
            state.signed.push_reserved(self.number);
        }
        state.count += 1;
    }
}

/// So many states that nobody signed, with room for so many entries each.
pub(super) fn new_tallies(alloc: Global, rows: usize, room: usize) -> Result<Vec<Tally>, AllocError>
    ensures len { IfOk result (λ v. length v.items ≡ rows) }
    ensures new { IfOk result (λ v. All (λ y. (y.signed.items ≡ []) × (y.count ≡ 0)) v.items) }
{
    let mut tallies = Vec::with_capacity(alloc, rows)?;
    for _row in 0..rows {
        tallies.push_reserved(Tally {
            signed: Vec::with_capacity(alloc, room)?,
            count: 0,
        });
    }
    Ok(tallies)
}

/// How often the pass signed.
pub(super) fn count_of(pass: u32, signed: &[u32]) -> usize {
    signed.iter().filter(|s| **s == pass).count()
}

#[derive(Drop)]
struct Drawer {
    pass: RowPass<Tally>,
    numbers: Vec<u64>,
}

fn draw_all(rows: &Rows<Tally>, drawer: &mut Drawer)
    requires { IsPassOf rows.now drawer.old.pass × ((log_of drawer.old.pass).calls ≡ 0) }
{
    for _draw in 0..100u32 {
        let number = rows.draw(&mut drawer.pass);
        if drawer.numbers.len() < drawer.numbers.capacity() {
            drawer.numbers.push_reserved(number);
        }
    }
}

/// What three passes draw in three threads, where 5 numbers are taken.
pub(super) fn draw_together<R: Threads + Sync>(
    rt: &R,
    alloc: Global,
) -> Result<Vec<u64>, AllocError> {
    let (rows, mut first) = Rows::new(alloc, new_tallies(alloc, 5, 0)?, 5)?;
    let second = rows.split(&mut first);
    let third = rows.split(&mut first);
    let mut drawers = [
        Drawer {
            pass: first,
            numbers: Vec::with_capacity(alloc, 300)?,
        },
        Drawer {
            pass: second,
            numbers: Vec::with_capacity(alloc, 300)?,
        },
        Drawer {
            pass: third,
            numbers: Vec::with_capacity(alloc, 300)?,
        },
    ];
    thread::for_each_mut(rt, &mut drawers, 3, &|_, drawer| draw_all(&rows, drawer));
    let [first, mut second, mut third] = drawers;
    let mut all = first.numbers;
    all.append(&mut second.numbers)?;
    all.append(&mut third.numbers)?;
    Ok(all)
}
