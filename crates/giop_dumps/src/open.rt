//! Messages that come in fragments.

ghost use Rattle.std.specs.Prelude.{◌≡◌, ◌≤◌, ◌+◌, length, true, false, IfOk};
ghost use Rattle.giop_messages.specs.Heads.{flags_in, goes_on, max_size};
ghost use Rattle.giop_messages.specs.Framing.{added, begun};
ghost use Rattle.giop_dumps.specs.OpenRuns.{is_followed, is_long, open_at};

use giop_messages::{HEAD_LEN, MAX_SIZE, add_piece, begin_run};
use std::alloc::{AllocError, Global};
use std::marker::Model;

/// Where the octets begin that a fragment brings.
const FRAGMENT_HEAD_LEN: usize = 16;

/// The pieces of a message that have come. A contract sees the place of the last one, and the message
/// that they would be if nothing more came.
#[derive(Drop)]
pub(crate) struct OpenMessage {
    octets: Vec<u8>,
    last: u64,
}

impl Model for OpenMessage {
    ghost use Rattle.giop_dumps.specs.OpenRuns.{IsReadable, Open, open_at};

    ghost Value = { Open };

    ghost view = { λ message. open_at message.last message.octets.items };

    ghost invariant = { λ message. IsReadable message.octets.items };
}

/// Whether fragments follow a message.
pub(crate) fn begins(message: &[u8]) -> bool
    requires { 12 ≤ length message.now }
    ensures { result ≡ is_followed message.now }
{
    message[6] / 2 % 2 == 1
}

impl OpenMessage {
    /// The message that a first piece begins, which stands at a place.
    ///
    /// # Errors
    /// Want of memory.
    pub(crate) fn begin(alloc: Global, place: u64, first: &[u8]) -> Result<OpenMessage, AllocError>
        requires numbered { 16 ≤ length first.now }
        requires limited { length first.now ≤ 12 + max_size }
        requires goes_on { goes_on (flags_in first.now) ≡ true }
        ensures { IfOk result (λ message. message ≡ open_at place (begun first.now)) }
    {
        Ok(OpenMessage {
            octets: begin_run(alloc, first)?,
            last: place,
        })
    }

    /// Where its last piece stands.
    pub(crate) fn last(&self) -> u64
        ensures { result ≡ self.now.last }
    {
        self.last
    }

    /// The message that it would be if nothing more came.
    pub(crate) fn octets(&self) -> &[u8]
        ensures octets { result.now ≡ self.now.octets }
        ensures numbered { 16 ≤ length result.now }
        ensures limited { length result.now ≤ 12 + max_size }
    {
        self.octets.as_slice()
    }

    /// Whether it gets too long with a fragment.
    pub(crate) fn is_long_with(&self, fragment: &[u8]) -> bool
        requires { 16 ≤ length fragment.now }
        ensures { result ≡ is_long self.now.octets fragment.now }
    {
        let more = fragment.len() - FRAGMENT_HEAD_LEN;
        HEAD_LEN + (MAX_SIZE as usize) < self.octets.len() + more
    }

    /// The message with the next piece, which stands at a place.
    ///
    /// # Errors
    /// Want of memory.
    pub(crate) fn with(self, place: u64, fragment: &[u8]) -> Result<OpenMessage, AllocError>
        requires numbered { 16 ≤ length fragment.now }
        requires limited { is_long self.octets fragment.now ≡ false }
        ensures { IfOk result (λ message. message ≡ open_at place (added self.octets fragment.now)) }
    {
        let OpenMessage {
            mut octets,
            last: _,
        } = self;
        add_piece(&mut octets, fragment)?;
        Ok(OpenMessage {
            octets,
            last: place,
        })
    }
}
