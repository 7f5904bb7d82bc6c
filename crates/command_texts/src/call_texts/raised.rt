//! Exceptions of operations.

ghost use Rattle.std.specs.Prelude.{ℕ, List, IfOk, IfSome, IfNone};
ghost use Rattle.std.specs.String.{string_bytes};
ghost use Rattle.type_model.specs.Names.{IsNamed};
ghost use Rattle.giop_messages.specs.Messages.{answered_of};
ghost use Rattle.command_texts.specs.Outcomes.{BeginsWithId, IsNoneRaised, IsTextOfRaised};
ghost use Rattle.command_texts.specs.inner.Ids.{IsFrameOfRaised, IsIdTape, IsUnknown};

use crate::call_texts::body::body_text;
use giop_messages::Reply;
use giop_types::{GiopTypes, ID_ARGUMENT, split_octets};
use position_checker::Accepted;
use std::alloc::{AllocError, Global};
use type_model::called_operations::exception_with;
use type_model::part_names::PartNames;

/// The tape of the repository id with which a body begins.
fn id_tape(
    types: &GiopTypes,
    alloc: Global,
    reply: &Reply<'_>,
) -> Result<Option<Vec<u8>>, AllocError>
    ensures found { IfOk result (λ o. IfSome o (λ tape. IsIdTape (answered_of reply.now) tape.items)) }
    ensures none { IfOk result (λ o. IfNone o ((id : List ℕ)
        → BeginsWithId reply.now.order reply.now.body_at reply.now.octets.now id → ⊥)) }
{
    let place = reply.body_at as u64;
    match types.find(alloc, ID_ARGUMENT, reply.order, place, reply.octets)? {
        Some((tape, _)) => Ok(Some(tape)),
        None => Ok(None),
    }
}

/// The frame of the exception with the id of a tape.
fn frame_with(table: &Accepted, exceptions: &[u32], reply: &Reply<'_>, tape: &[u8]) -> Option<u32>
    requires { IsIdTape (answered_of reply.now) tape.now }
    ensures found { IfSome result
        (λ frame. IsFrameOfRaised table.now.model exceptions.now (answered_of reply.now) frame) }
    ensures named { IfSome result (λ frame. IsNamed table.now.model.names frame) }
    ensures none { IfNone result (IsUnknown table.now.model exceptions.now (answered_of reply.now)) }
{
    let id = match split_octets(tape) {
        Some((id, _)) => id,
        None => unreachable!(),
    };
    match exception_with(table.table().model(), id, exceptions) {
        Some(exception) => Some(exception.frame),
        None => None,
    }
}

/// The text of the exception of an operation that a reply says, its id and its members; none where it
/// says none of these.
///
/// # Errors
/// Want of memory.
pub(crate) fn raised_text(
    types: &GiopTypes,
    alloc: Global,
    table: &Accepted,
    names: &PartNames,
    exceptions: &[u32],
    reply: &Reply<'_>,
) -> Result<Option<String>, AllocError>
    ensures found { IfOk result (λ o. IfSome o (λ text. IsTextOfRaised table.now.model names.now exceptions.now
        (answered_of reply.now) (string_bytes text))) }
    ensures none { IfOk result (λ o. IfNone o (IsNoneRaised table.now.model exceptions.now (answered_of reply.now))) }
{
    let tape = match id_tape(types, alloc, reply) {
        Ok(Some(tape)) => tape,
        Ok(None) => return Ok(None),
        Err(error) => return Err(error),
    };
    let Some(frame) = frame_with(table, exceptions, reply, tape.as_slice()) else {
        return Ok(None);
    };
    body_text(
        alloc,
        table,
        names,
        frame,
        reply.order,
        reply.body_at as u64,
        reply.octets,
    )
}
