//! What whole messages say.

ghost use Rattle.std.specs.Prelude.{◌≡◌, ◌≢◌, ◌≤◌, false, length, IfOk};
ghost use Rattle.giop_messages.specs.declared.head.MessageKind.TheVariants as kinds;
ghost use Rattle.giop_messages.specs.Messages.{IsWhole};
ghost use Rattle.giop_messages.specs.Runs.{IsMessage};
ghost use Rattle.giop_words.specs.Said.{IsLocated, IsSaid};

use giop::{Giop, Message};
use giop_messages::{HEAD_LEN, Head, MessageKind, number};
use std::alloc::{AllocError, Global};

/// The answer to the question whether an object is here.
#[derive(Clone, Copy, Debug, PartialEq, Eq)]
pub(crate) struct Located {
    pub(crate) id: u32,
    /// The number of its status.
    pub(crate) status: u32,
}

/// What a whole message says.
#[derive(Drop)]
pub(crate) enum Said<'b> {
    Message(Message<'b>),
    Located(Located),
    Nothing,
}

/// A reply to a locate request: its header is two numbers.
fn read_located(head: &Head, octets: &[u8]) -> Option<Located>
    ensures { IsLocated head.now octets.now result }
{
    if octets.len() < HEAD_LEN + 8 {
        return None;
    }
    Some(Located {
        id: number(head.order, &octets[12..]),
        status: number(head.order, &octets[16..]),
    })
}

/// What the octets of a reply to a locate request say.
fn said_of_located<'b>(head: &Head, octets: &[u8]) -> Said<'b>
    requires { IsWhole kinds.LocateReply octets.now head.now }
    ensures { IsSaid octets.now result }
{
    match read_located(head, octets) {
        Some(located) => Said::Located(located),
        None => Said::Nothing,
    }
}

/// What the octets of any other message say.
fn said_of_message<'b>(
    giop: &Giop,
    alloc: Global,
    head: &Head,
    octets: &'b [u8],
) -> Result<Said<'b>, AllocError>
    requires message { IsMessage head.now octets.now }
    requires alone { head.now.goes_on ≡ false }
    requires other { head.now.kind ≢ kinds.LocateReply }
    ensures { IfOk result (IsSaid octets.now) }
{
    match giop.read_whole(alloc, head, octets) {
        Ok(Some(message)) => Ok(Said::Message(message)),
        Ok(None) => Ok(Said::Nothing),
        Err(error) => Err(error),
    }
}

/// What the octets of a whole message say.
///
/// # Errors
/// Want of memory.
pub(crate) fn read_said<'b>(
    giop: &Giop,
    alloc: Global,
    octets: &'b [u8],
) -> Result<Said<'b>, AllocError>
    requires { 12 ≤ length octets.now }
    ensures { IfOk result (IsSaid octets.now) }
{
    let head = match Head::read(octets) {
        Ok(head) => head,
        Err(_) => return Ok(Said::Nothing),
    };
    if octets.len() != HEAD_LEN + head.size as usize {
        return Ok(Said::Nothing);
    }
    if head.goes_on {
        return Ok(Said::Nothing);
    }
    match head.kind {
        MessageKind::LocateReply => Ok(said_of_located(&head, octets)),
        _ => said_of_message(giop, alloc, &head, octets),
    }
}
