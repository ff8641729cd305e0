//! What a row holds, and what is done to it in a turn.
ghost use Rattle.std.specs.Prelude.{◌≡◌, ℕ, ◌+◌, ◌^◌, ◌<◌, List};
ghost use Rattle.turn_rows.specs.Lists.{Adds};

/// A state that a row holds: a history of entries, each made by a pass.
pub trait Held {
    type Entry;

    type Tag;

    // What was done to the state, in order.
    ghost entries: { Self → List Self.Entry };

    // The number of the pass that made an entry.
    ghost by: { Self.Entry → ℕ };

    // How many turns the state has had.
    ghost turns: { Self → ℕ };

    // What no turn changes.
    ghost tag: { Self → Self.Tag };

    // A number that a pass remembers of the state that it left.
    ghost mark: { Self → ℕ };
}

/// What is done with a row's state in one turn.
pub trait Step<S: Held> {
    // The tag of the states on which it may run.
    ghost on: { Self → S.Tag };

    // The number of the pass for which it adds an entry.
    ghost number: { Self → ℕ };

    // Of the step and the state before a run, and of the step and the state after it.
    ghost then: { Self → S → Self → S → Type 0 };

    /// Adds at most one entry of its pass at the end of the state's history, and counts the turn.
    fn run(&mut self, state: &mut S)
        requires tag { S.tag state.old ≡ on self.old }
        requires room { S.turns state.old < 2 ^ 63 }
        ensures tag { S.tag state.new ≡ S.tag state.old }
        ensures turns { S.turns state.new ≡ S.turns state.old + 1 }
        ensures adds { Adds S.by (number self.old) (S.entries state.old) (S.entries state.new) }
        ensures then { then self.old state.old self.new state.new };
}
