//! What becomes of calls.

ghost use Rattle.std.specs.Prelude.{IfOk, IfSome, IfNone};
ghost use Rattle.type_model.specs.Names.{IsNamed};
ghost use Rattle.giop_messages.specs.Messages.{answered_of};
ghost use Rattle.command_texts.specs.Outcomes.{HasNoOutcome, IsOutcome, called};

use crate::call_texts::body::body_text;
use crate::call_texts::disposition::read_disposition;
use crate::call_texts::raised::raised_text;
use giop::reply_bodies::{SystemException, read_exception, read_forward};
use giop_messages::{Reply, ReplyStatus};
use giop_types::GiopTypes;
use position_checker::Accepted;
use reference_texts::Ior;
use std::alloc::{AllocError, Global};
use type_model::part_names::PartNames;

/// What becomes of a call.
#[derive(Drop)]
pub enum Outcome {
    /// The text of the result and of the `inout` and `out` parameters.
    Returned(String),
    /// The text of an exception of the operation, its id and its members.
    Raised(String),
    Failed(SystemException),
    /// Where the object is.
    Forwarded(Ior),
    /// The object is to be named in this form (ISO/IEC 19500-2, GIOP message formats:
    /// AddressingDisposition), which may be none that there is.
    Readdressed(u16),
}

/// What a reply says of a call, by the types of the frame of its result and of the exceptions that it
/// may raise; none where the body isn't what the status says.
///
/// # Errors
/// Want of memory.
pub fn read_outcome(
    types: &GiopTypes,
    alloc: Global,
    table: &Accepted,
    names: &PartNames,
    node: u32,
    exceptions: &[u32],
    reply: &Reply<'_>,
) -> Result<Option<Outcome>, AllocError>
    requires { IsNamed table.now.model.names node }
    ensures found { IfOk result (λ o. IfSome o (IsOutcome
        (called table.now.model names.now node exceptions.now) (answered_of reply.now))) }
    ensures none { IfOk result (λ o. IfNone o (HasNoOutcome
        (called table.now.model names.now node exceptions.now) (answered_of reply.now))) }
{
    let place = reply.body_at as u64;
    match reply.status {
        ReplyStatus::NoException => {
            match body_text(alloc, table, names, node, reply.order, place, reply.octets) {
                Ok(Some(text)) => Ok(Some(Outcome::Returned(text))),
                Ok(None) => Ok(None),
                Err(error) => Err(error),
            }
        }
        ReplyStatus::UserException => {
            match raised_text(types, alloc, table, names, exceptions, reply) {
                Ok(Some(text)) => Ok(Some(Outcome::Raised(text))),
                Ok(None) => Ok(None),
                Err(error) => Err(error),
            }
        }
        ReplyStatus::SystemException => {
            match read_exception(types, alloc, reply.order, place, reply.octets) {
                Ok(Some(exception)) => Ok(Some(Outcome::Failed(exception))),
                Ok(None) => Ok(None),
                Err(error) => Err(error),
            }
        }
        ReplyStatus::LocationForward | ReplyStatus::LocationForwardPerm => {
            match read_forward(types, alloc, reply.order, place, reply.octets) {
                Ok(Some(ior)) => Ok(Some(Outcome::Forwarded(ior))),
                Ok(None) => Ok(None),
                Err(error) => Err(error),
            }
        }
        ReplyStatus::NeedsAddressingMode => {
            match read_disposition(reply.order, place, reply.octets) {
                Some(disposition) => Ok(Some(Outcome::Readdressed(disposition))),
                None => Ok(None),
            }
        }
    }
}
