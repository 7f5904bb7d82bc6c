//! Requests.

ghost use Rattle.std.specs.Option.{ForSome};
ghost use Rattle.type_model.specs.Names.{IsNamed};
ghost use Rattle.giop.specs.Made.{given_by};
ghost use Rattle.call_client.specs.Requests.{IsSending};

use crate::fault::CallFault;
use giop::{Addressed, Body, Giop};
use iiop_broker::{Output, send};
use std::alloc::Global;
use type_graph::Order;

/// What is asked of an object, but for the arguments.
#[derive(Clone, Copy)]
pub struct Request<'c> {
    /// The byte order of the message.
    pub order: Order,
    /// The number by which its reply is known.
    pub id: u32,
    /// Which answers are wanted (response_flags): 3 is all, 0 none.
    pub flags: u8,
    /// The object, as it is named to its server.
    pub target: Addressed<'c>,
    pub operation: &'c [u8],
}

/// Writes a request with the body of accepted types, the number of one of them that has a name, and
/// a tape.
///
/// # Errors
/// `NotARequest` where no octets are those of the request: as `write_request_to` of giop refuses it,
/// want of memory included; then nothing is written. `WriteFailed` where a write failed.
pub fn send_request<O: Output>(
    giop: &Giop,
    alloc: Global,
    writer: &mut O,
    request: &Request<'_>,
    body: Option<Body<'_>>,
) -> Result<(), CallFault>
    requires { ForSome body (λ b. IsNamed b.0.now.model.names b.1) }
    ensures { IsSending request.now (given_by body.entry) (O.written writer.old) result (O.written writer.new)
        (O.failure writer.new) }
{
    let octets = match giop.write_request_to(
        alloc,
        request.order,
        request.id,
        request.flags,
        request.target,
        request.operation,
        body,
    ) {
        Ok(octets) => octets,
        Err(fault) => return Err(CallFault::NotARequest(fault)),
    };
    match send(writer, octets.as_slice()) {
        Ok(()) => Ok(()),
        Err(sent) => Err(CallFault::WriteFailed { sent }),
    }
}
