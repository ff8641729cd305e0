ghost use Rattle.std.specs.Prelude.{◌≡◌, ◌+◌, ◌≤◌, [], vec_len, vec_capacity};

use crate::sink::Sink;
use crate::source::Failed;
use std::alloc::{AllocError, Global};

/// A sink in memory, which never fails. It grows in `reserve` alone.
#[derive(Debug, Drop)]
pub struct CleanSink {
    bytes: Vec<u8>,
    room: usize,
    ghost reserved: { vec_len bytes + room ≤ vec_capacity bytes },
}

impl CleanSink {
    ghost use Rattle.byte_devices.specs.Clean.{taken_bytes, reserved_room};

    /// A sink that took nothing yet, and has no room.
    pub fn new(alloc: Global) -> CleanSink
        ensures bytes { taken_bytes result ≡ [] }
        ensures room { reserved_room result ≡ 0 }
    {
        CleanSink {
            bytes: Vec::new(alloc),
            room: 0,
        }
    }

    /// The bytes that it took.
    pub fn bytes(&self) -> &[u8]
        ensures { result.now ≡ taken_bytes self.now }
    {
        self.bytes.as_slice()
    }
}

impl Sink for CleanSink {
    ghost use Rattle.std.specs.Prelude.{◌≡◌, ◌+◌, ◌≤◌, ◌++◌, length, Some, Ok, OnOk, OnErr};
    ghost use Rattle.byte_devices.specs.Clean.{taken_bytes, reserved_room};

    ghost has = { λ s. Some (taken_bytes s) };

    ghost faults = { λ _. 0 };

    ghost room = { λ s. reserved_room s };

    fn reserve(&mut self, bytes: usize) -> Result<(), AllocError> {
        if self.room < bytes {
            self.bytes.reserve(bytes)?;
            self.room = bytes;
        }
        Ok(())
    }

    /// Takes the whole piece.
    fn write(&mut self, piece: &[u8]) -> Result<usize, Failed>
        requires { length piece.now ≤ reserved_room self.old }
        ensures count { result ≡ Ok (length piece.now) }
        ensures bytes { taken_bytes self.new ≡ taken_bytes self.old ++ piece.now }
        ensures room { reserved_room self.new + length piece.now ≡ reserved_room self.old }
    {
        match self.bytes.extend_from_slice(piece) {
            Ok(()) => {
                self.room -= piece.len();
                Ok(piece.len())
            }
            Err(_) => unreachable!(),
        }
    }
}
