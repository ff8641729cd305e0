ghost use Rattle.std.specs.Prelude.{◌≡◌};

use crate::sink::Sink;
use crate::source::Failed;
use std::alloc::AllocError;
use std::io::Write;

/// A sink over a writer, as standard output. It tells nothing of its bytes. Each error of the writer is a
/// failure, and so is a write that takes nothing of a piece that is not empty.
#[derive(Drop)]
pub struct OutputSink<W: Write> {
    writer: W,
    faults: u64,
    room: usize,
}

impl<W: Write> OutputSink<W> {
    ghost use Rattle.byte_devices.specs.Edges.{writer_of, output_faults, output_room};

    /// A sink to the writer, which has not failed yet and has no room.
    pub fn new(writer: W) -> OutputSink<W>
        ensures writer { writer_of result ≡ writer }
        ensures faults { output_faults result ≡ 0 }
        ensures room { output_room result ≡ 0 }
    {
        OutputSink {
            writer,
            faults: 0,
            room: 0,
        }
    }
}

impl<W: Write> Sink for OutputSink<W> {
    ghost use Rattle.std.specs.Prelude.{◌≡◌, ◌+◌, ◌<◌, ◌≤◌, length, take, None, IfOk, OnOk, OnErr};
    ghost use Rattle.std.specs.Io.KnownBytes.{WriteAppends};
    ghost use Rattle.byte_devices.specs.Devices.{Rose, Adds};
    ghost use Rattle.byte_devices.specs.Edges.{writer_of, output_faults, output_room};

    ghost has = { λ _. None };

    ghost faults = { λ s. output_faults s };

    ghost room = { λ s. output_room s };

    /// Takes no memory, so it is never refused.
    fn reserve(&mut self, bytes: usize) -> Result<(), AllocError> {
        self.room = self.room.max(bytes);
        Ok(())
    }

    fn write(&mut self, piece: &[u8]) -> Result<usize, Failed>
        requires { length piece.now ≤ output_room self.old }
        ensures bound { IfOk result (λ n. n ≤ length piece.now) }
        ensures some { IfOk result (λ n. 0 < length piece.now → 0 < n) }
        ensures bytes { IfOk result (λ n. Adds None None (take n piece.now)) }
        ensures room { IfOk result (λ n. output_room self.new + n ≡ output_room self.old) }
        ensures kept { OnErr result (output_room self.new ≡ output_room self.old) }
        ensures cause { OnErr result (Rose (output_faults self.old) (output_faults self.new)) }
        ensures never_falls { output_faults self.old ≤ output_faults self.new }

        // What was taken went to the writer as it came.
        ensures passed { WriteAppends (W.contents (writer_of self.old)) (W.contents (writer_of self.new)) result piece.now }
    {
        match self.writer.write(piece) {
            Ok(count) if count > 0 || piece.is_empty() => {
                self.room -= count;
                Ok(count)
            }
            _ => {
                self.faults = self.faults.saturating_add(1);
                Err(Failed)
            }
        }
    }
}
