//! System exceptions.

ghost use Rattle.std.specs.Prelude.{ℕ, List, IfOk, IfSome, IfNone};
ghost use Rattle.giop.specs.Bodies.{Exception, HoldsException, exception_of};
ghost use Rattle.giop.specs.inner.ReplyBodiesTapes.{IsException};

use crate::reply_bodies::tape::tape_at;
use giop_types::{GiopTypes, SYSTEM_EXCEPTION, split_octets, split_u32};
use std::alloc::{AllocError, Global};
use type_graph::Order;

/// A system exception.
#[derive(Drop)]
pub struct SystemException {
    /// Its repository id.
    pub id: Vec<u8>,
    pub minor: u32,
    /// Whether the call was made: 0 yes, 1 no, 2 maybe (completion_status).
    pub completion: u32,
}

/// The parts of its tape.
#[derive(Clone, Copy)]
struct Parts<'t> {
    id: &'t [u8],
    minor: u32,
    completion: u32,
}

fn split(tape: &[u8]) -> Option<Parts<'_>>
    ensures found { IfSome result (λ parts. IsException tape.now parts.id.now parts.minor parts.completion) }
    ensures refused { IfNone result ((id : List ℕ) (minor completion : ℕ)
        → IsException tape.now id minor completion → ⊥) }
{
    let Some((id, behind)) = split_octets(tape) else {
        return None;
    };
    let Some((minor, behind)) = split_u32(behind) else {
        return None;
    };
    match split_u32(behind) {
        Some((completion, _)) => Some(Parts {
            id,
            minor,
            completion,
        }),
        None => None,
    }
}

/// The system exception with which octets at a place of a message begin, as the body of a reply of
/// SYSTEM_EXCEPTION is to; none where they begin with no such.
///
/// # Errors
/// Want of memory.
pub fn read_exception(
    types: &GiopTypes,
    alloc: Global,
    order: Order,
    place: u64,
    octets: &[u8],
) -> Result<Option<SystemException>, AllocError>
    ensures found { IfOk result (λ o. IfSome o (λ e. HoldsException order place octets.now (exception_of e))) }
    ensures refused { IfOk result (λ o. IfNone o ((exception : Exception)
        → HoldsException order place octets.now exception → ⊥)) }
{
    let tape = match tape_at(types, alloc, SYSTEM_EXCEPTION, order, place, octets)? {
        Some(tape) => tape,
        None => return Ok(None),
    };
    let Some(parts) = split(tape.as_slice()) else {
        return Ok(None);
    };
    Ok(Some(SystemException {
        id: Vec::from_slice(alloc, parts.id)?,
        minor: parts.minor,
        completion: parts.completion,
    }))
}
