ghost use Rattle.std.specs.Prelude.{◌≡◌};
ghost use Rattle.drill_script.specs.Draws.{first_state, next_state, number_at};

const MULTIPLIER: u64 = 1_103_515_245;

const INCREMENT: u64 = 12_345;

const STATES: u64 = 2_147_483_648;

/// The draws of a seed, one after the other: a linear congruential generator that gives the upper half of its state.
#[derive(Debug, Drop)]
pub(crate) struct Draws {
    pub(crate) state: u32,
}

impl Draws {
    /// The draws of this seed, none of them taken.
    pub(crate) fn new(seed: u32) -> Draws
        ensures { result.state ≡ first_state seed }
    {
        Draws {
            state: (u64::from(seed) % STATES) as u32,
        }
    }

    /// The next draw, below 32,768.
    pub(crate) fn next(&mut self) -> u32
        ensures state { self.new.state ≡ next_state self.old.state }
        ensures number { result ≡ number_at self.new.state }
    {
        self.state = ((u64::from(self.state) * MULTIPLIER + INCREMENT) % STATES) as u32;
        self.state / 65_536 % 32_768
    }
}
