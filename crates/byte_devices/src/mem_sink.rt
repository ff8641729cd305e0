use crate::call_plan::CallPlan;
use crate::clean_sink::CleanSink;
use crate::sink::Sink;
use crate::source::Failed;
use std::alloc::{AllocError, Global};

/// A sink in memory that takes its bytes by pieces, and fails at the writes that it is made to fail at. It grows in
/// `reserve` alone.
#[derive(Debug, Drop)]
pub struct MemSink {
    clean: CleanSink,
    plan: CallPlan,
}

impl MemSink {
    ghost use Rattle.std.specs.Prelude.{◌≡◌, ◌≤◌, []};
    ghost use Rattle.byte_devices.specs.CallPlans.{IsUnused};
    ghost use Rattle.byte_devices.specs.MemDevices.{sink_bytes, sink_room, sink_plan};

    /// A sink that took nothing yet, and has no room. A write takes at most `piece` bytes, and fails where its
    /// number is in `fails`. All writes are numbered, from 0, those that fail too.
    pub fn new(alloc: Global, piece: usize, fails: Vec<u32>) -> MemSink
        requires { 1 ≤ piece }
        ensures bytes { sink_bytes result ≡ [] }
        ensures room { sink_room result ≡ 0 }
        ensures plan { IsUnused (sink_plan result) piece fails.items }
    {
        MemSink {
            clean: CleanSink::new(alloc),
            plan: CallPlan::new(piece, fails),
        }
    }

    /// The bytes that it took.
    pub fn bytes(&self) -> &[u8]
        ensures { result.now ≡ sink_bytes self.now }
    {
        self.clean.bytes()
    }
}

impl Sink for MemSink {
    ghost use Rattle.std.specs.Prelude.{◌≡◌, ◌+◌, ◌<◌, ◌≤◌, ◌++◌, length, take, Some, IfOk, OnOk, OnErr};
    ghost use Rattle.byte_devices.specs.CallPlans.{most_of, MakesCall};
    ghost use Rattle.byte_devices.specs.MemDevices.{sink_bytes, sink_room, sink_plan};

    ghost has = { λ s. Some (sink_bytes s) };

    ghost faults = { λ s. (sink_plan s).faults };

    ghost room = { λ s. sink_room s };

    /// Makes room for so many bytes. It is numbered among no writes, and fails for want of memory alone. Then
    /// nothing changes.
    fn reserve(&mut self, bytes: usize) -> Result<(), AllocError>
        ensures room { OnOk result (bytes ≤ sink_room self.new) }
        ensures refused { OnErr result (sink_room self.new ≡ sink_room self.old) }
        ensures bytes { sink_bytes self.new ≡ sink_bytes self.old }
        ensures plan { sink_plan self.new ≡ sink_plan self.old }
    {
        self.clean.reserve(bytes)
    }

    /// Takes as many bytes as `piece` and a piece of this sink have.
    ///
    /// It fails exactly where the number of this write is listed. Then nothing is taken, and no room is used.
    fn write(&mut self, piece: &[u8]) -> Result<usize, Failed>
        requires { length piece.now ≤ sink_room self.old }
        ensures call { MakesCall (sink_plan self.old) (sink_plan self.new) result }
        ensures count { IfOk result (λ n. n ≡ most_of (sink_plan self.old) (length piece.now)) }
        ensures bytes { IfOk result (λ n. sink_bytes self.new ≡ sink_bytes self.old ++ take n piece.now) }
        ensures room { IfOk result (λ n. sink_room self.new + n ≡ sink_room self.old) }
        ensures kept { OnErr result (sink_bytes self.new ≡ sink_bytes self.old) }
        ensures room_kept { OnErr result (sink_room self.new ≡ sink_room self.old) }
    {
        self.plan.make_call()?;
        let most = self.plan.most_of(piece.len());
        self.clean.write(&piece[..most])
    }
}
