//! Calls on connections that are made for them.

ghost use Rattle.std.specs.Option.{ForSome};
ghost use Rattle.type_model.specs.Names.{IsNamed};
ghost use Rattle.giop.specs.Made.{given_by};
ghost use Rattle.call_client.specs.Talks.{IsCalledAt, asking};

use crate::object_calls::dial::{Dial, DialFault};
use crate::{CallFault, ReplyBody, Request, call};
use giop::{Body, Giop};
use giop_messages::GiopFault;
use std::alloc::Global;

/// Calls an object at a port of a host, on a connection of its own. So many reads may give octets.
///
/// # Errors
/// `NotReached` where no connection can be made; `NotARequest` with want of memory where memory was wanted
/// for one, and no call was made; else as `call` of call_client says.
pub fn call_at<D: Dial>(
    giop: &Giop,
    alloc: Global,
    dial: &mut D,
    host: &[u8],
    port: u16,
    request: &Request<'_>,
    body: Option<Body<'_>>,
    reads: u64,
) -> Result<Option<ReplyBody>, CallFault>
    requires { ForSome body (λ b. IsNamed b.0.now.model.names b.1) }
    ensures { IsCalledAt (D.went dial.old) (D.went dial.new) (asking request.now (given_by body.entry) reads)
        host.now port (D.lines dial.old) result (D.lines dial.new) }
{
    let (mut reader, mut writer) = match dial.dial(host, port) {
        Ok((reader, writer)) => (reader, writer),
        Err(DialFault::NotReached) => return Err(CallFault::NotReached),
        Err(DialFault::NoMemory) => return Err(CallFault::NotARequest(GiopFault::NoMemory)),
    };
    let called = call(giop, alloc, &mut reader, &mut writer, request, body, reads);
    dial.hang_up(reader, writer);
    called
}
