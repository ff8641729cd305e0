//! A turn: the pass draws a ticket, waits until it is served, runs its step, and serves the next.
ghost use Rattle.std.specs.Prelude.{◌≡◌, ◌≢◌, ℕ, ◌+◌, ◌^◌, ◌<◌, [], true};
ghost use lib.ListN.{get_elem?};
ghost use Rattle.turn_rows.specs.declared.view.Stage.TheVariants.{Idle, Served};
ghost use Rattle.turn_rows.specs.Lists.{StartsWith};
ghost use Rattle.turn_rows.specs.Rule.{meaning};
ghost use Rattle.turn_rows.specs.Plays.{moved, with_call, Ran};
ghost use Rattle.turn_rows.specs.Passes.{IsSeatOf, IsPassOf, IsSamePass, log_of, tag_state, row_count, seen_in, TurnTaken};

use crate::held::{Held, Step};
use crate::plays::{Advance, Give, Look, Take, Ticket};
use crate::rows::{RowPass, Rows, WORDS_A_ROW};
use crate::view::View;
use atomic_table::Seat;
use std::hint::spin_loop;
use std::sync::Wait;
use std::thread::yield_now;

// How often a pass that waits looks at once again, and how often in all before it sleeps.
const SPINS: u32 = 32;

const LOOKS: u32 = 96;

// How often a pass looks for a free row before it draws a ticket behind others.
const APPROACHES: u32 = 64;

impl<S: Held> Rows<S> {
    /// Runs the step on the row's state in this pass's turn. It waits for the turns that were drawn before, and takes no memory.
    ///
    /// Afterwards the pass has seen the entries of the state that the step left. They begin with what it had seen, its own have grown by what the step added, and its other rows and its draws are as before. Where no other pass was made, the step found what this pass had left.
    pub fn turn<M: Step<S>, R: Wait>(&self, rt: &R, pass: &mut RowPass<S>, row: u32, step: &mut M)
        requires own { IsPassOf self.now pass.old }
        requires few { (log_of pass.old).calls < 2 ^ 60 }
        requires row { row < row_count self.now }
        requires tag { M.on step.old ≡ S.tag (tag_state self.now) }
        requires number { M.number step.old ≡ (log_of pass.old).number }
        ensures own { IsPassOf self.now pass.new }
        ensures same { IsSamePass pass.old pass.new }
        ensures calls { (log_of pass.new).calls ≡ (log_of pass.old).calls + 1 }
        ensures draws { (log_of pass.new).draws ≡ (log_of pass.old).draws }
        ensures others { (b : ℕ) → b ≢ row → get_elem? (log_of pass.new).rows b ≡ get_elem? (log_of pass.old).rows b }
        ensures grows { StartsWith (seen_in S.entries (log_of pass.new) row) (seen_in S.entries (log_of pass.old) row) }
        ensures taken { TurnTaken (meaning S.entries S.by S.turns S.tag S.mark) (λ x y. M.then step.old x step.new y) (tag_state self.now) (log_of pass.old) row (log_of pass.new) }
    {
        let row = row as usize;
        let seat = &mut pass.seat;
        let ticket = self.wait(rt, seat, row);
        self.run(seat, row, ticket, step);
    }

    /// Draws a ticket, and returns it once it is served.
    fn wait<R: Wait>(&self, rt: &R, seat: &mut Seat<S, View<S>>, row: usize) -> u64
        requires own { IsSeatOf self.now seat.old }
        requires live { seat.old.me.0.live ≡ true }
        requires idle { seat.old.me.0.stage ≡ Idle }
        requires few { seat.old.me.0.own.calls < 2 ^ 60 }
        requires row { row < self.now.count }
        ensures seat { (seat.new.table_id ≡ seat.old.table_id) × (seat.new.id ≡ seat.old.id) }
        ensures served { seat.new.me ≡ (moved seat.old.me.0 (Served row result) (with_call seat.old.me.0.own), seat.old.me.1) }
        ensures fits { result < 2 ^ 63 }
    {
        let words = &self.table.shared;
        let serving = row * WORDS_A_ROW;
        self.approach(serving);
        let ticket = words.fetch_add::<Ticket>(seat, serving + 1, 1);
        let mut looks = 0u32;
        for _ in rt.forever() {
            let now = words.load::<Look>(seat, serving);
            if now == ticket {
                return ticket;
            }
            looks = looks.saturating_add(1);
            self.pause(rt, serving, now, looks);
        }
        unreachable!()
    }

    /// Yields while the row is busy, but not for ever. A pass that draws its ticket in a free row is served at once, and one that queues is served only once its thread runs again, while the threads that do run wait for it.
    fn approach(&self, serving: usize)
        requires { serving + 1 < self.now.table.shared.table_id.words }
    {
        let words = &self.table.shared;
        for _look in 0..APPROACHES {
            if words.peek(serving + 1) <= words.peek(serving) {
                return;
            }
            yield_now();
        }
    }

    /// What a pass does that has looked so often in vain: it looks again, then yields, and then sleeps until another ticket is served.
    fn pause<R: Wait>(&self, rt: &R, serving: usize, now: u64, looks: u32)
        requires { serving < self.now.table.shared.table_id.words }
    {
        if looks < SPINS {
            spin_loop();
        } else if looks < LOOKS {
            yield_now();
        } else {
            let words = &self.table.shared;
            words.park(rt, serving, (now & 0xffff_ffff) as u32);
        }
    }

    /// Takes the state out, runs the step on it, brings it home, and serves the next ticket.
    fn run<M: Step<S>>(&self, seat: &mut Seat<S, View<S>>, row: usize, ticket: u64, step: &mut M)
        requires own { IsSeatOf self.now seat.old }
        requires live { seat.old.me.0.live ≡ true }
        requires served { seat.old.me.0.stage ≡ Served row ticket }
        requires holds { seat.old.me.1 ≡ [] }
        requires fits { ticket < 2 ^ 63 }
        requires row { row < self.now.count }
        requires tag { M.on step.old ≡ S.tag (tag_state self.now) }
        requires number { M.number step.old ≡ seat.old.me.0.own.number }
        ensures seat { (seat.new.table_id ≡ seat.old.table_id) × (seat.new.id ≡ seat.old.id) × (seat.new.me.1 ≡ []) }
        ensures ran { Ran (meaning S.entries S.by S.turns S.tag S.mark) (λ x y. M.then step.old x step.new y) seat.old.me.0 row seat.new.me.0 }
    {
        let words = &self.table.shared;
        let serving = row * WORDS_A_ROW;
        words.load::<Take>(seat, serving);
        let state = seat.slot_mut(words, row);
        step.run(state);
        words.load::<Give>(seat, serving);
        words.store::<Advance>(seat, serving, ticket + 1);
        self.wake(serving, ticket + 1);
    }

    /// Wakes those that sleep until a ticket is served, if a ticket after `next` was drawn. Whoever draws one later sees that `next` is served.
    fn wake(&self, serving: usize, next: u64)
        requires { serving + 1 < self.now.table.shared.table_id.words }
    {
        let words = &self.table.shared;
        if words.peek(serving + 1) > next {
            words.wake_all(serving);
        }
    }
}
