//! What whole messages say, as lines.

ghost use Rattle.std.specs.Prelude.{◌≤◌, length, IfOk};
ghost use Rattle.type_model.specs.Names.{IsNamed};

use crate::asked::{Asked, Requests};
use crate::body::{reply_text, request_text};
use crate::frames::{Frames, MessageTypes};
use crate::names::{Named, operation_called};
use crate::quoted::Quoted;
use crate::said::{Located, Said, read_said};
use crate::unread::Unread;
use giop::{Locate, Message, Reply, ReplyStatus, Request};
use giop_dumps::{Digits, unread_lines};
use std::alloc::{AllocError, Global};
use type_graph::Order;

fn order_name(order: Order) -> &'static str {
    match order {
        Order::Big => "big",
        Order::Little => "little",
    }
}

fn status_name(status: ReplyStatus) -> &'static str {
    match status {
        ReplyStatus::NoException => "NO_EXCEPTION",
        ReplyStatus::UserException => "USER_EXCEPTION",
        ReplyStatus::SystemException => "SYSTEM_EXCEPTION",
        ReplyStatus::LocationForward => "LOCATION_FORWARD",
        ReplyStatus::LocationForwardPerm => "LOCATION_FORWARD_PERM",
        ReplyStatus::NeedsAddressingMode => "NEEDS_ADDRESSING_MODE",
    }
}

/// The line of a body, or of one that can't be read.
fn body_line(
    alloc: Global,
    text: Option<String>,
    why: Unread,
    octets: &[u8],
) -> Result<String, AllocError> {
    match text {
        Some(text) => format!(in alloc; "  {text}\n"),
        None => unread_lines(alloc, &why, octets),
    }
}

/// The key that a target tells, if it tells one.
fn key_text(alloc: Global, key: &Option<Vec<u8>>) -> Result<String, AllocError> {
    match key {
        Some(key) => format!(in alloc; "{}", Quoted(key.as_slice())),
        None => String::from_str(alloc, "-"),
    }
}

fn request_body(
    types: &MessageTypes<'_>,
    alloc: Global,
    named: Named,
    request: &Request<'_>,
) -> Result<String, AllocError> {
    match types.frames(named) {
        Some(frames) => {
            let text = request_text(types, alloc, &frames, request)?;
            body_line(alloc, text, Unread::OtherArguments, request.octets)
        }
        None => unread_lines(alloc, &Unread::UnknownOperation, request.octets),
    }
}

/// The lines of a request. It is remembered where it wants an answer.
fn request_lines(
    types: &MessageTypes<'_>,
    alloc: Global,
    own: &mut Requests,
    request: &Request<'_>,
) -> Result<String, AllocError> {
    let named = operation_called(types, alloc, request)?;
    let body = request_body(types, alloc, named, request)?;
    let key = key_text(alloc, &request.key)?;
    if request.flags % 4 != 0 {
        own.remember(Asked {
            id: request.id,
            named,
        })?;
    }
    let id = request.id;
    let flags = request.flags;
    let order = order_name(request.order);
    let operation = Quoted(request.operation.as_slice());
    format!(in alloc;
        "Request id {id} key {key} operation {operation} flags {flags} order {order}\n{body}"
    )
}

/// Whether the body of a reply with this status depends on the operation.
fn is_of_operation(status: ReplyStatus) -> bool {
    matches!(
        status,
        ReplyStatus::NoException | ReplyStatus::UserException
    )
}

/// The frames by which a reply is read.
fn frames_of_reply<'t>(
    types: &MessageTypes<'t>,
    named: Option<Named>,
    status: ReplyStatus,
) -> Result<Frames<'t>, Unread>
    ensures { IfOk result (λ f. IsNamed f.table.now.model.names f.reply) }
{
    if !is_of_operation(status) {
        return Ok(types.own_frames());
    }
    match named {
        Some(named) => match types.frames(named) {
            Some(frames) => Ok(frames),
            None => Err(Unread::UnknownOperation),
        },
        None => Err(Unread::NoRequest),
    }
}

fn reply_body(
    types: &MessageTypes<'_>,
    alloc: Global,
    named: Option<Named>,
    reply: &Reply<'_>,
) -> Result<String, AllocError> {
    match frames_of_reply(types, named, reply.status) {
        Ok(frames) => {
            let text = reply_text(types, alloc, &frames, reply)?;
            body_line(alloc, text, Unread::OtherBody, reply.octets)
        }
        Err(why) => unread_lines(alloc, &why, reply.octets),
    }
}

/// The lines of a reply, whose request was of the other direction.
fn reply_lines(
    types: &MessageTypes<'_>,
    alloc: Global,
    other: &mut Requests,
    reply: &Reply<'_>,
) -> Result<String, AllocError> {
    let named = match other.answered(reply.id) {
        Some(asked) => Some(asked.named),
        None => None,
    };
    let body = reply_body(types, alloc, named, reply)?;
    let id = reply.id;
    let status = status_name(reply.status);
    let order = order_name(reply.order);
    format!(in alloc; "Reply id {id} status {status} order {order}\n{body}")
}

fn locate_line(alloc: Global, locate: &Locate) -> Result<String, AllocError> {
    let key = key_text(alloc, &locate.key)?;
    let id = locate.id;
    let order = order_name(locate.order);
    format!(in alloc; "LocateRequest id {id} key {key} order {order}\n")
}

/// The line of a reply to a locate request, and what stands behind its header.
fn located_lines(alloc: Global, located: Located, body: &[u8]) -> Result<String, AllocError> {
    let id = located.id;
    let status = located.status;
    if body.is_empty() {
        return format!(in alloc; "LocateReply id {id} status {status}\n");
    }
    let digits = Digits(body);
    format!(in alloc; "LocateReply id {id} status {status}\n  {digits}\n")
}

fn message_lines(
    types: &MessageTypes<'_>,
    alloc: Global,
    own: &mut Requests,
    other: &mut Requests,
    message: Message<'_>,
) -> Result<String, AllocError> {
    match message {
        Message::Request(request) => request_lines(types, alloc, own, &request),
        Message::Reply(reply) => reply_lines(types, alloc, other, &reply),
        Message::Cancel(id) => format!(in alloc; "CancelRequest id {id}\n"),
        Message::Locate(locate) => locate_line(alloc, &locate),
        Message::CloseConnection => String::from_str(alloc, "CloseConnection\n"),
        Message::MessageError => String::from_str(alloc, "MessageError\n"),
    }
}

/// The lines of a whole message.
pub(crate) fn whole_lines(
    types: &MessageTypes<'_>,
    alloc: Global,
    own: &mut Requests,
    other: &mut Requests,
    octets: &[u8],
) -> Result<String, AllocError>
    requires { 12 ≤ length octets.now }
{
    match read_said(types.giop, alloc, octets)? {
        Said::Message(message) => message_lines(types, alloc, own, other, message),
        Said::Located(located) => located_lines(alloc, located, &octets[20..]),
        Said::Nothing => {
            let lines = unread_lines(alloc, &Unread::BadHead, octets)?;
            format!(in alloc; "message\n{lines}")
        }
    }
}
