//! Messages written to buffers.

ghost use Rattle.std.specs.Prelude.{◌≡◌, ◌≤◌, drop, length, take, IfErr, IfOk, OnErr};
ghost use Rattle.type_model.specs.Names.{IsNamed};
ghost use Rattle.giop.specs.Made.{given};
ghost use Rattle.giop.specs.Messages.{IsNoReplyOf, IsNoRequestOf, IsReplyOf, IsRequestOf, Refuses};

use crate::giop_buffers::buffer::put;
use crate::giop_buffers::fault::BufferFault;
use crate::{Body, Giop, ReplyStatus};
use std::alloc::Global;
use type_graph::Order;

/// What is asked of an object, but for the arguments.
#[derive(Clone, Copy)]
pub struct RequestHead<'c> {
    /// The byte order of the message.
    pub order: Order,
    /// The number by which its reply is known.
    pub id: u32,
    /// Which answers are wanted (response_flags): 3 is all, 0 none.
    pub flags: u8,
    /// The key of the object at its server.
    pub key: &'c [u8],
    pub operation: &'c [u8],
}

/// How a call ended, but for the results.
#[derive(Clone, Copy)]
pub struct ReplyHead {
    /// The byte order of the message.
    pub order: Order,
    /// The number of the request.
    pub id: u32,
    pub status: ReplyStatus,
}

/// Writes the request to the front of the buffer, with the body of a tape, and tells how many octets
/// it has.
///
/// # Errors
/// As `write_request` of giop, or `NoRoom`. The buffer is then as it was.
pub fn write_request(
    giop: &Giop,
    alloc: Global,
    head: &RequestHead<'_>,
    body: Body<'_>,
    out: &mut [u8],
) -> Result<usize, BufferFault>
    requires { IsNamed body.0.now.model.names body.1 }
    ensures written { IfOk result (λ len. IsRequestOf head.now
        (given body.entry.0.now.model.graph body.entry.1 body.entry.2.now) (take len out.new)) }
    ensures within { IfOk result (λ len. len ≤ length out.old) }
    ensures behind { IfOk result (λ len. drop len out.new ≡ drop len out.old) }
    ensures refused { IfErr result (Refuses
        (IsRequestOf head.now (given body.entry.0.now.model.graph body.entry.1 body.entry.2.now)) (length out.old)
        (IsNoRequestOf head.now (given body.entry.0.now.model.graph body.entry.1 body.entry.2.now))) }
    ensures kept { OnErr result (out.new ≡ out.old) }
{
    let octets = match giop.write_request(
        alloc,
        head.order,
        head.id,
        head.flags,
        head.key,
        head.operation,
        Some(body),
    ) {
        Ok(octets) => octets,
        Err(fault) => return Err(BufferFault::Refused(fault)),
    };
    match put(octets.as_slice(), out) {
        Ok(len) => Ok(len),
        Err(needed) => Err(BufferFault::NoRoom { needed }),
    }
}

/// Writes the reply to the front of the buffer, with the body of a tape, and tells how many octets it
/// has.
///
/// # Errors
/// As `write_reply` of giop, or `NoRoom`. The buffer is then as it was.
pub fn write_reply(
    giop: &Giop,
    alloc: Global,
    head: &ReplyHead,
    body: Body<'_>,
    out: &mut [u8],
) -> Result<usize, BufferFault>
    requires { IsNamed body.0.now.model.names body.1 }
    ensures written { IfOk result (λ len. IsReplyOf head.now
        (given body.entry.0.now.model.graph body.entry.1 body.entry.2.now) (take len out.new)) }
    ensures within { IfOk result (λ len. len ≤ length out.old) }
    ensures behind { IfOk result (λ len. drop len out.new ≡ drop len out.old) }
    ensures refused { IfErr result (Refuses
        (IsReplyOf head.now (given body.entry.0.now.model.graph body.entry.1 body.entry.2.now)) (length out.old)
        (IsNoReplyOf head.now (given body.entry.0.now.model.graph body.entry.1 body.entry.2.now))) }
    ensures kept { OnErr result (out.new ≡ out.old) }
{
    let octets = match giop.write_reply(alloc, head.order, head.id, head.status, Some(body)) {
        Ok(octets) => octets,
        Err(fault) => return Err(BufferFault::Refused(fault)),
    };
    match put(octets.as_slice(), out) {
        Ok(len) => Ok(len),
        Err(needed) => Err(BufferFault::NoRoom { needed }),
    }
}
