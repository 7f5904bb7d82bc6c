//! How much is read of a connection at a time.

ghost use Rattle.std.specs.Prelude.{◌≡◌, ◌<◌, ◌≤◌};
ghost use Rattle.broker_answers.specs.Connections.{at};
ghost use Rattle.iiop_broker.specs.Kept.{streams_of};
ghost use Rattle.iiop_broker.specs.Room.{is_begun, room_of, wanted};

use crate::connections::{Connection, kept_of};
use crate::kept::Kept;
use giop_messages::{HEAD_LEN, Head};

/// The most that is read at a time.
pub const MAX_ROOM: usize = 65_536;

/// What the message at the front still wants, or its head, as long as that hasn't come.
fn wanted(rest: &[u8]) -> usize
    ensures { result ≡ wanted rest.now }
{
    if rest.len() < HEAD_LEN {
        return HEAD_LEN - rest.len();
    }
    match Head::read(rest) {
        Ok(head) => (head.size as usize + HEAD_LEN).saturating_sub(rest.len()),
        Err(_) => 0,
    }
}

/// How many octets of the connection of a number are read next at most.
pub(crate) fn room(connections: &[Connection], c: u32) -> usize
    ensures value { result ≡ room_of (at c (streams_of connections.now)) }
    ensures some { 0 < result }
    ensures few { result ≤ 65536 }
{
    match kept_of(connections, c) {
        Some(Kept::Open { run: _, rest }) => wanted(rest.as_slice()).min(MAX_ROOM).max(1),
        Some(Kept::Closed) => HEAD_LEN,
        None => HEAD_LEN,
    }
}

/// Whether a message is begun on the connection of a number and isn't whole.
pub(crate) fn is_begun(connections: &[Connection], c: u32) -> bool
    ensures { result ≡ is_begun (at c (streams_of connections.now)) }
{
    match kept_of(connections, c) {
        Some(Kept::Open { run, rest }) => run.is_some() || !rest.is_empty(),
        Some(Kept::Closed) => false,
        None => false,
    }
}
