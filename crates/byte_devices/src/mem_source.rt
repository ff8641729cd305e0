use crate::call_plan::CallPlan;
use crate::clean_source::CleanSource;
use crate::source::{Failed, Source};

/// A source in memory that gives its bytes by pieces, and fails at the reads that it is made to fail at.
#[derive(Debug, Drop)]
pub struct MemSource {
    clean: CleanSource,
    plan: CallPlan,
}

impl MemSource {
    ghost use Rattle.std.specs.Prelude.{◌≡◌, ◌≤◌};
    ghost use Rattle.byte_devices.specs.CallPlans.{IsUnused};
    ghost use Rattle.byte_devices.specs.MemDevices.{source_bytes, source_plan};

    /// A source of these bytes. A read gives at most `piece` of them, and fails where its number is in `fails`.
    /// All reads are numbered, from 0, those that fail too.
    pub fn new(bytes: Vec<u8>, piece: usize, fails: Vec<u32>) -> MemSource
        requires { 1 ≤ piece }
        ensures bytes { source_bytes result ≡ bytes.items }
        ensures plan { IsUnused (source_plan result) piece fails.items }
    {
        MemSource {
            clean: CleanSource::new(bytes),
            plan: CallPlan::new(piece, fails),
        }
    }
}

impl Source for MemSource {
    ghost use Rattle.std.specs.Prelude.{◌≡◌, ◌++◌, length, take, drop, Some, IfOk, OnErr};
    ghost use Rattle.byte_devices.specs.CallPlans.{MakesCall};
    ghost use Rattle.byte_devices.specs.MemDevices.{source_bytes, source_plan, given_count};

    ghost held = { λ s. Some (source_bytes s) };

    ghost faults = { λ s. (source_plan s).faults };

    /// Gives as many bytes as there are, as `into` has room for and as a piece has, and leaves the rest of `into`.
    ///
    /// It fails exactly where the number of this read is listed. Then nothing is taken, and `into` stays.
    fn read(&mut self, into: &mut [u8]) -> Result<usize, Failed>
        ensures call { MakesCall (source_plan self.old) (source_plan self.new) result }
        ensures count { IfOk result (λ n. n ≡ given_count self.old (length into.old)) }
        ensures bytes { IfOk result (λ n. source_bytes self.old ≡ take n into.new ++ source_bytes self.new) }
        ensures rest { IfOk result (λ n. drop n into.new ≡ drop n into.old) }
        ensures kept { OnErr result (source_bytes self.new ≡ source_bytes self.old) }
        ensures untouched { OnErr result (into.new ≡ into.old) }
    {
        self.plan.make_call()?;
        let most = self.plan.most_of(into.len());
        self.clean.read(&mut into[..most])
    }
}
