//! What is done where a capture has no more octets for now.

/// Whether a capture goes on behind its end.
pub trait Patience {
    /// Waits a while, and tells whether it is to be looked at once more; false: it has ended.
    fn waits(&mut self) -> bool;
}

/// A capture that has ended has ended.
#[derive(Clone, Copy)]
pub struct Impatience;

impl Patience for Impatience {
    fn waits(&mut self) -> bool {
        false
    }
}
