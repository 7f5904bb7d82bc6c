//! Memory that one call leaves for another.

use crate::whole::Small;
use std::alloc::Global;

/// Memory for calls that put what they give into a buffer of the caller's: room for a small value, and what the last call
/// on a larger one needed.
#[derive(Drop)]
pub struct Room {
    pub(crate) small: Small,
    pub(crate) octets: Vec<u8>,
}

impl Room {
    /// One that has room for a small value. Takes no memory.
    pub fn new(alloc: Global) -> Room {
        Room {
            small: Small::new(),
            octets: Vec::new(alloc),
        }
    }

    /// Lets go of what a call on a larger value left, if it is more than so many octets.
    pub fn trim(&mut self, most: usize) {
        if self.octets.capacity() > most {
            let alloc = *self.octets.allocator();
            self.octets = Vec::new(alloc);
        }
    }
}
