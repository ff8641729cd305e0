ghost use Rattle.std.specs.Prelude.{◌≤◌};

use crate::source::Failed;

/// How a device in memory answers its calls: the most bytes that one moves, and the numbers, from 0, of those that
/// fail.
///
/// The count of calls stays at the greatest `u64`. No list has that number, so no call from there on fails.
#[derive(Debug, Drop)]
pub(crate) struct CallPlan {
    piece: usize,
    fails: Vec<u32>,
    calls: u64,
    faults: u64,
    ghost moves: { 1 ≤ piece },
}

impl CallPlan {
    ghost use Rattle.std.specs.Prelude.{◌≡◌, ◌↔◌, ◌≤◌, IsTrue};
    ghost use Rattle.byte_devices.specs.CallPlans.{IsUnused, most_of, FailsNext, MakesCall};

    /// The plan of a device that had no call yet.
    pub(crate) fn new(piece: usize, fails: Vec<u32>) -> CallPlan
        requires { 1 ≤ piece }
        ensures { IsUnused result piece fails.items }
    {
        CallPlan {
            piece,
            fails,
            calls: 0,
            faults: 0,
        }
    }

    /// How many of these bytes one call moves.
    pub(crate) fn most_of(&self, bytes: usize) -> usize
        ensures { result ≡ most_of self.now bytes }
    {
        bytes.min(self.piece)
    }

    /// Counts one call, and fails it where its number is listed.
    pub(crate) fn make_call(&mut self) -> Result<(), Failed>
        ensures { MakesCall self.old self.new result }
    {
        let fails = self.fails_next();
        self.calls = self.calls.saturating_add(1);
        if fails {
            self.faults = self.faults.saturating_add(1);
            return Err(Failed);
        }
        Ok(())
    }

    fn fails_next(&self) -> bool
        ensures { IsTrue result ↔ FailsNext self.now }
    {
        self.fails
            .iter()
            .any(|number| u64::from(*number) == self.calls)
    }
}
