//! What is told of whole messages.

ghost use Rattle.std.specs.Prelude.{◌≤◌, ℕ, List, length, IfOk};
ghost use Rattle.std.specs.String.{string_bytes};
ghost use Rattle.giop_dumps.specs.declared.captures.follow.Side.{Side};

use crate::captures::Side;
use std::alloc::{AllocError, Global};

/// The words of whole messages of GIOP 1.2, whose fragments are joined. They are asked for in the order in
/// which the messages are told.
pub trait Words {
    /// What is told of a message of a direction: the words before, the direction, the message, its lines, the
    /// words after.
    ghost says: { Self → Side → List ℕ → List ℕ → Self → Type 0 } = { λ _ _ _ _ _. Unit {0} };

    /// The words of a message of a direction, as lines.
    ///
    /// # Errors
    /// Want of memory.
    fn words(&mut self, alloc: Global, side: Side, octets: &[u8]) -> Result<String, AllocError>
        requires { 12 ≤ length octets.now }
        ensures { IfOk result (λ text. says self.old side octets.now (string_bytes text) self.new) };

    /// Whether a message is a reply to a request that wasn't told yet.
    fn is_early(&self, side: Side, octets: &[u8]) -> bool
        requires { 12 ≤ length octets.now };
}
