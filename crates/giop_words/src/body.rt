//! Bodies of requests and replies as text.

ghost use Rattle.std.specs.Prelude.{IfOk, IfSome, IfNone};
ghost use Rattle.std.specs.String.{string_bytes};
ghost use Rattle.type_model.specs.Names.{IsNamed};
ghost use Rattle.giop_messages.specs.Messages.{answered_of};
ghost use Rattle.command_texts.specs.Bodies.{HasNoValue, IsTextOfBody};
ghost use Rattle.command_texts.specs.Outcomes.{HasNoOutcome, called};
ghost use Rattle.giop_words.specs.Bodies.{IsTextOfReply, Shows};

use crate::frames::{Frames, MessageTypes};
use crate::quoted::Quoted;
use command_texts::call_texts::{Outcome, read_outcome};
use giop::reply_bodies::SystemException;
use giop::{Reply, ReplyStatus, Request};
use reference_texts::{Ior, ReferenceFault, ior_to_text};
use std::alloc::{AllocError, Global};

/// The text of the arguments with which the body of a request begins; none where it begins with none of
/// the operation. Such a body is read as that of a reply whose result has the same types.
pub(crate) fn request_text(
    types: &MessageTypes<'_>,
    alloc: Global,
    frames: &Frames<'_>,
    request: &Request<'_>,
) -> Result<Option<String>, AllocError>
    requires { IsNamed frames.now.table.now.model.names frames.now.request }
    ensures found { IfOk result (λ o. IfSome o (λ text. IsTextOfBody frames.now.names.now
        frames.now.table.now.model.graph request.now.order frames.now.request request.now.body_at
        request.now.octets.now (string_bytes text))) }
    ensures none { IfOk result (λ o. IfNone o (HasNoValue frames.now.table.now.model.graph request.now.order
        frames.now.request request.now.body_at request.now.octets.now)) }
{
    let reply = Reply {
        id: request.id,
        status: ReplyStatus::NoException,
        order: request.order,
        body_at: request.body_at,
        octets: request.octets,
    };
    let outcome = read_outcome(
        types.giop.types(),
        alloc,
        frames.table,
        frames.names,
        frames.request,
        &[],
        &reply,
    );
    match outcome {
        Ok(Some(Outcome::Returned(text))) => Ok(Some(text)),
        Ok(Some(_)) => unreachable!(),
        Ok(None) => Ok(None),
        Err(error) => Err(error),
    }
}

/// A system exception: its id, its minor code, and whether the call was made.
fn exception_text(alloc: Global, exception: &SystemException) -> Result<String, AllocError> {
    let id = Quoted(exception.id.as_slice());
    let completion = exception.completion;
    format!(in alloc;
        "system exception {id} minor 0x{:08x} completion {completion}",
        exception.minor
    )
}

/// Where an object is, as the text of the reference.
fn forward_text(types: &MessageTypes<'_>, alloc: Global, ior: &Ior) -> Result<String, AllocError> {
    match ior_to_text(types.giop.types(), alloc, ior) {
        Ok(text) => Ok(text),
        Err(ReferenceFault::NoMemory) => Err(AllocError),
        Err(ReferenceFault::BadIor) => String::from_str(alloc, "a reference that can't be written"),
    }
}

/// What becomes of a call, as text.
fn outcome_text(
    types: &MessageTypes<'_>,
    alloc: Global,
    outcome: Outcome,
) -> Result<String, AllocError>
    ensures { IfOk result (λ text. Shows outcome (string_bytes text)) }
{
    match outcome {
        Outcome::Returned(text) | Outcome::Raised(text) => Ok(text),
        Outcome::Failed(exception) => exception_text(alloc, &exception),
        Outcome::Forwarded(ior) => forward_text(types, alloc, &ior),
        Outcome::Readdressed(_) => String::from_str(alloc, "another form of address is wanted"),
    }
}

/// The text of what a reply says of a call; none where its body isn't what its status says.
pub(crate) fn reply_text(
    types: &MessageTypes<'_>,
    alloc: Global,
    frames: &Frames<'_>,
    reply: &Reply<'_>,
) -> Result<Option<String>, AllocError>
    requires { IsNamed frames.now.table.now.model.names frames.now.reply }
    ensures found { IfOk result (λ o. IfSome o (λ text. IsTextOfReply
        (called frames.now.table.now.model frames.now.names.now frames.now.reply frames.now.exceptions.now)
        (answered_of reply.now) (string_bytes text))) }
    ensures none { IfOk result (λ o. IfNone o (HasNoOutcome
        (called frames.now.table.now.model frames.now.names.now frames.now.reply frames.now.exceptions.now)
        (answered_of reply.now))) }
{
    let outcome = read_outcome(
        types.giop.types(),
        alloc,
        frames.table,
        frames.names,
        frames.reply,
        frames.exceptions,
        reply,
    );
    match outcome {
        Ok(Some(outcome)) => Ok(Some(outcome_text(types, alloc, outcome)?)),
        Ok(None) => Ok(None),
        Err(error) => Err(error),
    }
}
