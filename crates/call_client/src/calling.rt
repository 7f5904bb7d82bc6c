//! Calls.

ghost use Rattle.std.specs.Option.{ForSome};
ghost use Rattle.type_model.specs.Names.{IsNamed};
ghost use Rattle.giop.specs.Made.{given_by};
ghost use Rattle.iiop_broker.specs.Outcomes.{ends};
ghost use Rattle.call_client.specs.Calls.{IsCalled};

use crate::answer::ReplyBody;
use crate::awaiting::await_reply;
use crate::fault::CallFault;
use crate::request::{Request, send_request};
use giop::{Body, Giop};
use iiop_broker::{Input, Output};
use std::alloc::Global;

/// Sends a request, and reads until its reply has come. So many reads may give octets. Where no answer
/// is wanted (flags 0), nothing is read, and there is none.
///
/// # Errors
/// As `send_request` and `await_reply` say.
pub fn call<I: Input, O: Output>(
    giop: &Giop,
    alloc: Global,
    reader: &mut I,
    writer: &mut O,
    request: &Request<'_>,
    body: Option<Body<'_>>,
    reads: u64,
) -> Result<Option<ReplyBody>, CallFault>
    requires { ForSome body (λ b. IsNamed b.0.now.model.names b.1) }
    ensures { IsCalled request.now (given_by body.entry) reads
        (ends (I.left reader.old) (O.written writer.old) (I.failure reader.old) (O.failure writer.old)) result
        (ends (I.left reader.new) (O.written writer.new) (I.failure reader.new) (O.failure writer.new)) }
{
    send_request(giop, alloc, writer, request, body)?;
    if request.flags == 0 {
        return Ok(None);
    }
    match await_reply(giop, alloc, request.id, reader, reads) {
        Ok(answer) => Ok(Some(answer)),
        Err(fault) => Err(fault),
    }
}
