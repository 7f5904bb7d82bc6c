//! Heads of messages that a server sends.

ghost use Rattle.std.specs.Prelude.{◌≡◌, ◌≤◌, length, Ok};
ghost use Rattle.giop_messages.specs.ReplyStreamsHeads.{followed as followed_as, may_go_on, reply_head as reply_head_in};
ghost use Rattle.giop_messages.specs.ReplyStreamsRoom.{wanted as wanted_by_all};

use crate::{FramingFault, HEAD_LEN, Head, MessageKind};

/// Whether fragments may follow.
fn may_be_followed(kind: MessageKind) -> bool
    ensures { result ≡ may_go_on kind }
{
    match kind {
        MessageKind::Reply | MessageKind::LocateReply | MessageKind::Fragment => true,
        MessageKind::Request
        | MessageKind::CancelRequest
        | MessageKind::LocateRequest
        | MessageKind::CloseConnection
        | MessageKind::MessageError => false,
    }
}

/// The head of a message that fragments follow.
fn followed(head: Head) -> Result<Head, FramingFault>
    ensures { result ≡ followed_as (Ok head) }
{
    if may_be_followed(head.kind) {
        Ok(Head {
            kind: head.kind,
            order: head.order,
            goes_on: true,
            size: head.size,
        })
    } else {
        Err(FramingFault::BadHead)
    }
}

/// What the 12 octets at the front say to a client.
///
/// # Errors
/// What is wrong with them.
pub(crate) fn reply_head(octets: &[u8]) -> Result<Head, FramingFault>
    requires { 12 ≤ length octets.now }
    ensures { result ≡ reply_head_in octets.now }
{
    if octets[6] / 2 % 2 != 1 {
        return Head::read(octets);
    }
    let mut front = [0u8; HEAD_LEN];
    front.copy_from_slice(&octets[..HEAD_LEN]);
    front[6] -= 2;
    match Head::read(front.as_slice()) {
        Ok(head) => followed(head),
        Err(fault) => Err(fault),
    }
}

/// What the message at the front still wants, or its head, as long as that hasn't come; 0 where no message
/// stands there.
pub(crate) fn wanted(rest: &[u8]) -> usize
    ensures { result ≡ wanted_by_all rest.now }
{
    if rest.len() < HEAD_LEN {
        return HEAD_LEN - rest.len();
    }
    match reply_head(rest) {
        Ok(head) => (head.size as usize + HEAD_LEN).saturating_sub(rest.len()),
        Err(_) => 0,
    }
}
