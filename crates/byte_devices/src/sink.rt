use crate::source::Failed;
use std::alloc::AllocError;

/// Where bytes go to.
pub trait Sink {
    ghost use Rattle.std.specs.Prelude.{◌≡◌, ℕ, ◌+◌, ◌<◌, ◌≤◌, List, length, take, Option, IfOk, OnOk, OnErr};
    ghost use Rattle.byte_devices.specs.Devices.{Rose, Adds};

    // The bytes taken, where it tells them.
    ghost has: { Self → Option (List ℕ) };

    // How often it failed.
    ghost faults: { Self → ℕ };

    // How many bytes it has room for.
    ghost room: { Self → ℕ };

    /// Makes room for so many bytes. Where memory is refused, nothing changes.
    fn reserve(&mut self, bytes: usize) -> Result<(), AllocError>
        ensures room { OnOk result (bytes ≤ room self.new) }
        ensures refused { OnErr result (room self.new ≡ room self.old) }
        ensures has { has self.new ≡ has self.old }
        ensures faults { faults self.new ≡ faults self.old };

    /// Takes bytes of the front of `piece`, one at least of a piece that is not empty, and answers how many.
    ///
    /// It fails only where its count of faults rises in this call, and then nothing is taken.
    fn write(&mut self, piece: &[u8]) -> Result<usize, Failed>
        requires { length piece.now ≤ room self.old }
        ensures bound { IfOk result (λ n. n ≤ length piece.now) }
        ensures some { IfOk result (λ n. 0 < length piece.now → 0 < n) }
        ensures bytes { IfOk result (λ n. Adds (has self.old) (has self.new) (take n piece.now)) }
        ensures room { IfOk result (λ n. room self.new + n ≡ room self.old) }
        ensures kept { OnErr result ((has self.new ≡ has self.old) × (room self.new ≡ room self.old)) }
        ensures cause { OnErr result (Rose (faults self.old) (faults self.new)) }
        ensures never_falls { faults self.old ≤ faults self.new };
}
