ghost use Rattle.std.specs.Prelude.{◌≡◌};

use crate::source::{Failed, Source};
use std::marker::Model;

/// A source in memory, which never fails.
///
/// Contracts see it as the bytes still to come.
#[derive(Debug, Drop)]
pub struct CleanSource {
    bytes: Vec<u8>,
    at: usize,
}

impl Model for CleanSource {
    ghost use Rattle.std.specs.Prelude.{ℕ, ◌≤◌, List, drop, vec_len};

    ghost Value = { List ℕ };

    ghost view = { λ s. drop s.at s.bytes.items };

    ghost invariant = { λ s. s.at ≤ vec_len s.bytes };
}

impl CleanSource {
    /// A source of these bytes.
    pub fn new(bytes: Vec<u8>) -> CleanSource
        ensures { result ≡ bytes.items }
    {
        CleanSource { bytes, at: 0 }
    }
}

impl Source for CleanSource {
    ghost use Rattle.std.specs.Prelude.{◌≡◌, ◌++◌, length, min, take, drop, Some, Ok, IfOk};

    ghost held = { λ s. Some s };

    ghost faults = { λ _. 0 };

    /// Gives as many bytes as there are and as `into` has room for, and leaves the rest of `into`.
    fn read(&mut self, into: &mut [u8]) -> Result<usize, Failed>
        ensures count { result ≡ Ok (min (length into.old) (length self.old)) }
        ensures bytes { IfOk result (λ n. self.old ≡ take n into.new ++ self.new) }
        ensures rest { IfOk result (λ n. drop n into.new ≡ drop n into.old) }
    {
        let count = into.len().min(self.bytes.len() - self.at);
        let piece = &self.bytes[self.at..self.at + count];
        into[..count].copy_from_slice(piece);
        self.at += count;
        Ok(count)
    }
}
