//! The two directions of a ring of places.
ghost use Rattle.std.specs.Prelude.{◌≡◌, ◌≤◌, slice_set, replicate};

/// The place between the last index and the first, where the ring closes.
pub const END: u8 = 128;

/// The places of a ring: the indexes below 128, and the end.
const PLACES: usize = 129;

/// For each place the one after it and the one before it.
#[derive(Drop)]
pub struct Links {
    pub next: [u8; PLACES],
    pub previous: [u8; PLACES],
}

impl Links {
    /// The ring of the end alone.
    pub fn new() -> Links
        ensures next { result.next ≡ replicate 129 128 }
        ensures previous { result.previous ≡ replicate 129 128 }
    {
        Links {
            next: [END; PLACES],
            previous: [END; PLACES],
        }
    }

    /// Lets `to` follow `from`, in both directions.
    pub fn join(&mut self, from: u8, to: u8)
        requires from { from ≤ 128 }
        requires to { to ≤ 128 }
        ensures next { self.new.next ≡ slice_set self.old.next from to }
        ensures previous { self.new.previous ≡ slice_set self.old.previous to from }
    {
        self.next[from as usize] = to;
        self.previous[to as usize] = from;
    }
}
