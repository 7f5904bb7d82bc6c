//! One message of a stream.

ghost use Rattle.std.specs.Prelude.{◌≡◌, ◌≤◌, ◌+◌, length, IfOk, nat_eq};
ghost use Rattle.giop_messages.specs.declared.fault.FramingFault.TheVariants.{BadFragment, BadHead};
ghost use Rattle.giop_messages.specs.declared.head.MessageKind.TheVariants.{Fragment, Reply};
ghost use Rattle.giop_messages.specs.Framing.{id_in};
ghost use Rattle.giop_messages.specs.Fronts.{front, placed};
ghost use Rattle.giop_messages.specs.inner.Runs.{IsSent};
ghost use Rattle.giop_messages.specs.inner.Turns.{IsTaken, IsTurn};

use crate::reply_streams::head::reply_head;
use crate::reply_streams::reply::SentReply;
use crate::{FramingFault, HEAD_LEN, Head, MessageKind, message_id};
use std::alloc::{AllocError, Global};

/// What becomes of a stream by what stands at its front.
#[derive(Drop)]
pub(crate) enum Turn {
    /// Nothing: more octets have to come.
    Waits(Option<SentReply>),
    /// So many octets are no part of the reply.
    Passes { run: Option<SentReply>, len: usize },
    /// So many octets are a piece of the reply.
    Goes { run: SentReply, len: usize },
    /// The reply is whole.
    Replies(SentReply),
    /// No message stands there.
    Breaks(FramingFault),
    /// The server closes the connection.
    Ends,
    /// To the server a message was none.
    Refuses,
}

/// Whether a message has the number.
fn has_id(id: u64, message: &[u8]) -> bool
    requires { 16 ≤ length message.now }
    ensures { result ≡ nat_eq (id_in message.now) id }
{
    u64::from(message_id(message)) == id
}

/// Takes a reply, or the first piece of one.
fn take_reply(
    alloc: Global,
    id: u64,
    run: Option<SentReply>,
    head: &Head,
    message: &[u8],
) -> Result<Turn, AllocError>
    requires sent { IsSent head.now message.now }
    requires reply { head.now.kind ≡ Reply }
    ensures { IfOk result (λ turn.
        IsTaken run (placed id run Reply head.now message.now) (length message.now) turn) }
{
    let len = message.len();
    if head.size < 4 {
        return Ok(Turn::Breaks(FramingFault::BadHead));
    }
    if !has_id(id, message) {
        return Ok(Turn::Passes { run, len });
    }
    if run.is_some() || (head.goes_on && head.is_cut()) {
        return Ok(Turn::Breaks(FramingFault::BadFragment));
    }
    let reply = SentReply::begin(alloc, message)?;
    if head.goes_on {
        Ok(Turn::Goes { run: reply, len })
    } else {
        Ok(Turn::Replies(reply))
    }
}

/// Takes a later piece of a reply.
fn take_fragment(
    id: u64,
    run: Option<SentReply>,
    head: &Head,
    message: &[u8],
) -> Result<Turn, AllocError>
    requires sent { IsSent head.now message.now }
    ensures { IfOk result (λ turn.
        IsTaken run (placed id run Fragment head.now message.now) (length message.now) turn) }
{
    let len = message.len();
    if head.size < 4 {
        return Ok(Turn::Breaks(FramingFault::BadFragment));
    }
    if !has_id(id, message) {
        return Ok(Turn::Passes { run, len });
    }
    let Some(mut reply) = run else {
        return Ok(Turn::Breaks(FramingFault::BadFragment));
    };
    if reply.is_broken_by(head) {
        return Ok(Turn::Breaks(FramingFault::BadFragment));
    }
    reply.add(message)?;
    if head.goes_on {
        Ok(Turn::Goes { run: reply, len })
    } else {
        Ok(Turn::Replies(reply))
    }
}

/// Takes a whole message.
fn take_message(
    alloc: Global,
    id: u64,
    run: Option<SentReply>,
    head: &Head,
    message: &[u8],
) -> Result<Turn, AllocError>
    requires { IsSent head.now message.now }
    ensures { IfOk result (λ turn.
        IsTaken run (placed id run head.now.kind head.now message.now) (length message.now) turn) }
{
    match head.kind {
        MessageKind::Reply => take_reply(alloc, id, run, head, message),
        MessageKind::Fragment => take_fragment(id, run, head, message),
        MessageKind::LocateReply => Ok(Turn::Passes {
            run,
            len: message.len(),
        }),
        MessageKind::CloseConnection => Ok(Turn::Ends),
        MessageKind::MessageError => Ok(Turn::Refuses),
        MessageKind::Request | MessageKind::CancelRequest | MessageKind::LocateRequest => {
            Ok(Turn::Breaks(FramingFault::BadHead))
        }
    }
}

/// Takes what stands at the front of a stream while a run may be open.
///
/// # Errors
/// Want of memory.
pub(crate) fn take_turn(
    alloc: Global,
    id: u64,
    run: Option<SentReply>,
    octets: &[u8],
) -> Result<Turn, AllocError>
    ensures { IfOk result (λ turn. IsTurn run (front id run octets.now) octets.now turn) }
{
    if octets.len() < HEAD_LEN {
        return Ok(Turn::Waits(run));
    }
    let head = match reply_head(octets) {
        Ok(head) => head,
        Err(fault) => return Ok(Turn::Breaks(fault)),
    };
    let len = HEAD_LEN + head.size as usize;
    if octets.len() < len {
        return Ok(Turn::Waits(run));
    }
    take_message(alloc, id, run, &head, octets.split_at(len).0)
}
