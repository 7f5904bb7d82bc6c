//! Octets of a direction that have come and aren't told yet.

ghost use Rattle.std.specs.Prelude.{◌≡◌, ◌≤◌, ◌++◌, length, take, drop, OnOk, OnErr, []};
ghost use Rattle.giop_dumps.specs.Backlogs.{behind};

use std::alloc::{AllocError, Global};

/// The octets that have come, and how many stood before them.
#[derive(Drop)]
pub struct Backlog {
    /// How many octets of the direction stand before these, as far as 2 ^ 64 - 1.
    pub place: u64,
    pub octets: Vec<u8>,
}

impl Backlog {
    /// No octets. Takes no memory.
    pub fn new(alloc: Global) -> Backlog
        ensures place { result.place ≡ 0 }
        ensures octets { result.octets.items ≡ [] }
    {
        Backlog {
            place: 0,
            octets: Vec::new(alloc),
        }
    }

    /// Octets come behind those that are here.
    ///
    /// # Errors
    /// Want of memory, and then it is as it was.
    pub fn add(&mut self, octets: &[u8]) -> Result<(), AllocError>
        ensures added { OnOk result (self.new.octets.items ≡ self.old.octets.items ++ octets.now) }
        ensures kept { OnErr result (self.new.octets.items ≡ self.old.octets.items) }
        ensures place { self.new.place ≡ self.old.place }
    {
        self.octets.extend_from_slice(octets)
    }

    /// Lets so many octets go.
    pub fn pass(&mut self, count: usize)
        requires { count ≤ length self.old.octets.items }
        ensures octets { self.new.octets.items ≡ drop count self.old.octets.items }
        ensures place { self.new.place ≡ behind self.old.place count }
    {
        let len = self.octets.len();
        self.octets.as_mut_slice().copy_within(count..len, 0);
        self.octets.truncate(len - count);
        self.place = self.place.saturating_add(count as u64);
    }
}
