/// A source or a sink failed.
#[derive(Clone, Copy, Debug, PartialEq, Eq)]
pub struct Failed;

/// Where bytes come from.
pub trait Source {
    ghost use Rattle.std.specs.Prelude.{◌≡◌, ℕ, ◌<◌, ◌≤◌, List, [], length, take, Option, Some, IfOk, OnErr};
    ghost use Rattle.byte_devices.specs.Devices.{Rose, TakesFirst, IsAtEnd};

    // The bytes still to come, where it tells them.
    ghost held: { Self → Option (List ℕ) };

    // How often it failed.
    ghost faults: { Self → ℕ };

    /// Fills the front of `into`, and answers how many bytes. 0 for room that is not empty is the end.
    ///
    /// A source that tells its bytes gives the first of them. It fails only where its count of faults
    /// rises in this call, and then nothing is taken.
    fn read(&mut self, into: &mut [u8]) -> Result<usize, Failed>
        ensures bound { IfOk result (λ n. n ≤ length into.old) }
        ensures bytes { IfOk result (λ n. TakesFirst (held self.old) (held self.new) (take n into.new)) }
        ensures end { IfOk result (λ n. n ≡ 0 → 0 < length into.old → IsAtEnd (held self.old)) }
        ensures kept { OnErr result (held self.new ≡ held self.old) }
        ensures cause { OnErr result (Rose (faults self.old) (faults self.new)) }
        ensures never_falls { faults self.old ≤ faults self.new };
}
