//! The headers of messages, read from their tapes.

ghost use Rattle.std.specs.Prelude.{◌≡◌, ◌≢◌, ℕ, List, ◌++◌, length, IfOk, IfErr, IfSome, IfNone};
ghost use Rattle.type_graph.specs.Value.{Tree};
ghost use Rattle.giop_types.specs.TapeRefusal.{RefusesReading};
ghost use Rattle.giop_messages.specs.declared.message.ReplyStatus.{ReplyStatus};
ghost use Rattle.giop_messages.specs.Headers.{cancel_tree, number_of};
ghost use Rattle.giop.specs.inner.Tapes.{Begins};
ghost use Rattle.giop.specs.inner.Targets.{IsLocateHeader, IsReplyHeader, IsRequestHeader};
ghost use Rattle.giop_types.specs.GiopNodes.{request_header_node, reply_header_node, locate_request_header_node, cancel_request_header_node};

use crate::reading::target::{Target, split_target};
use giop_messages::ReplyStatus as Status;
use giop_types::{TapeFault, split_octets, split_u8, split_u32};
use std::alloc::Global;

/// The header of a request, without its service contexts.
#[derive(Clone, Copy)]
pub(crate) struct RequestHeader<'t> {
    pub(crate) id: u32,
    pub(crate) flags: u8,
    pub(crate) target: Target<'t>,
    pub(crate) operation: &'t [u8],
}

/// The header of a reply, without its service contexts.
#[derive(Clone, Copy)]
pub(crate) struct ReplyHeader {
    pub(crate) id: u32,
    pub(crate) status: Status,
}

/// The header of a locate request.
#[derive(Clone, Copy)]
pub(crate) struct LocateHeader<'t> {
    pub(crate) id: u32,
    pub(crate) target: Target<'t>,
}

/// The octets behind the reserved ones.
fn skip_reserved(tape: &[u8]) -> Option<&[u8]>
    ensures found { IfSome result (λ rest. (reserved address : List ℕ)
        → length reserved ≡ 3 → tape.now ≡ reserved ++ address → rest.now ≡ address) }
    ensures refused { IfNone result ((reserved address : List ℕ)
        → length reserved ≡ 3 → tape.now ≡ reserved ++ address → ⊥) }
{
    if tape.len() < 3 {
        return None;
    }
    Some(tape.split_at(3).1)
}

/// The header of a request at the front of a tape.
pub(crate) fn request_header(alloc: Global, tape: &[u8]) -> Result<RequestHeader<'_>, TapeFault>
    ensures found { IfOk result (λ header. (value : Tree) (rest : List ℕ)
        → Begins request_header_node value tape.now rest → IsRequestHeader value header) }
    ensures refused { IfErr result (λ fault. RefusesReading fault
        ((value : Tree) (rest : List ℕ) → Begins request_header_node value tape.now rest → ⊥)) }
{
    let Some((id, behind)) = split_u32(tape) else {
        return Err(TapeFault::NotATape);
    };
    let Some((flags, behind)) = split_u8(behind) else {
        return Err(TapeFault::NotATape);
    };
    let Some(behind) = skip_reserved(behind) else {
        return Err(TapeFault::NotATape);
    };
    let (target, behind) = match split_target(alloc, behind) {
        Ok(split) => split,
        Err(fault) => return Err(fault),
    };
    match split_octets(behind) {
        Some((operation, _)) => Ok(RequestHeader {
            id,
            flags,
            target,
            operation,
        }),
        None => Err(TapeFault::NotATape),
    }
}

/// The status of a number.
fn status_of(number: u32) -> Option<Status>
    ensures found { IfSome result (λ status. number_of status ≡ number) }
    ensures refused { IfNone result ((status : ReplyStatus) → number_of status ≢ number) }
{
    match number {
        0 => Some(Status::NoException),
        1 => Some(Status::UserException),
        2 => Some(Status::SystemException),
        3 => Some(Status::LocationForward),
        4 => Some(Status::LocationForwardPerm),
        5 => Some(Status::NeedsAddressingMode),
        _ => None,
    }
}

/// The header of a reply at the front of a tape.
pub(crate) fn reply_header(tape: &[u8]) -> Option<ReplyHeader>
    ensures found { IfSome result (λ header. (value : Tree) (rest : List ℕ)
        → Begins reply_header_node value tape.now rest → IsReplyHeader value header) }
    ensures refused { IfNone result ((value : Tree) (rest : List ℕ)
        → Begins reply_header_node value tape.now rest → ⊥) }
{
    let Some((id, behind)) = split_u32(tape) else {
        return None;
    };
    let Some((number, _)) = split_u32(behind) else {
        return None;
    };
    match status_of(number) {
        Some(status) => Some(ReplyHeader { id, status }),
        None => None,
    }
}

/// The number in the header of a cancel request at the front of a tape.
pub(crate) fn cancel_header(tape: &[u8]) -> Option<u32>
    ensures found { IfSome result (λ id. (value : Tree) (rest : List ℕ)
        → Begins cancel_request_header_node value tape.now rest → value ≡ cancel_tree id) }
    ensures refused { IfNone result ((value : Tree) (rest : List ℕ)
        → Begins cancel_request_header_node value tape.now rest → ⊥) }
{
    match split_u32(tape) {
        Some((id, _)) => Some(id),
        None => None,
    }
}

/// The header of a locate request at the front of a tape.
pub(crate) fn locate_header(alloc: Global, tape: &[u8]) -> Result<LocateHeader<'_>, TapeFault>
    ensures found { IfOk result (λ header. (value : Tree) (rest : List ℕ)
        → Begins locate_request_header_node value tape.now rest → IsLocateHeader value header) }
    ensures refused { IfErr result (λ fault. RefusesReading fault
        ((value : Tree) (rest : List ℕ) → Begins locate_request_header_node value tape.now rest → ⊥)) }
{
    let Some((id, behind)) = split_u32(tape) else {
        return Err(TapeFault::NotATape);
    };
    match split_target(alloc, behind) {
        Ok((target, _)) => Ok(LocateHeader { id, target }),
        Err(fault) => Err(fault),
    }
}
