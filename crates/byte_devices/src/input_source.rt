ghost use Rattle.std.specs.Prelude.{◌≡◌};

use crate::source::{Failed, Source};
use std::io::Read;

/// A source over a reader, as standard input. It tells nothing of its bytes, and each error of the reader
/// is a failure.
#[derive(Drop)]
pub struct InputSource<R: Read> {
    reader: R,
    faults: u64,
}

impl<R: Read> InputSource<R> {
    ghost use Rattle.byte_devices.specs.Edges.{reader_of, input_faults};

    /// A source of what the reader gives, which has not failed yet.
    pub fn new(reader: R) -> InputSource<R>
        ensures reader { reader_of result ≡ reader }
        ensures faults { input_faults result ≡ 0 }
    {
        InputSource { reader, faults: 0 }
    }
}

impl<R: Read> Source for InputSource<R> {
    ghost use Rattle.std.specs.Prelude.{◌≡◌, ◌<◌, ◌≤◌, length, take, None, IfOk, OnErr};
    ghost use Rattle.std.specs.Io.KnownBytes.{ReadConsumes};
    ghost use Rattle.byte_devices.specs.Devices.{Rose, TakesFirst, IsAtEnd};
    ghost use Rattle.byte_devices.specs.Edges.{reader_of, input_faults};

    ghost held = { λ _. None };

    ghost faults = { λ s. input_faults s };

    fn read(&mut self, into: &mut [u8]) -> Result<usize, Failed>
        ensures bound { IfOk result (λ n. n ≤ length into.old) }
        ensures bytes { IfOk result (λ n. TakesFirst None None (take n into.new)) }
        ensures end { IfOk result (λ n. n ≡ 0 → 0 < length into.old → IsAtEnd None) }
        ensures cause { OnErr result (Rose (input_faults self.old) (input_faults self.new)) }
        ensures never_falls { input_faults self.old ≤ input_faults self.new }

        // What the reader gave is handed on as it came.
        ensures passed { ReadConsumes (R.remaining (reader_of self.old)) (R.remaining (reader_of self.new)) result into.new }
    {
        match self.reader.read(into) {
            Ok(count) => Ok(count),
            Err(_) => {
                self.faults = self.faults.saturating_add(1);
                Err(Failed)
            }
        }
    }
}
