//! Where an object is.

ghost use Rattle.std.specs.Prelude.{IfOk, IfSome, IfNone};
ghost use Rattle.reference_texts.specs.References.{Reference, reference_of};
ghost use Rattle.giop.specs.Bodies.{HoldsReference};

use crate::reply_bodies::tape::tape_at;
use giop_types::{GiopTypes, OBJECT, TapeFault};
use reference_texts::{Ior, reference_in};
use std::alloc::{AllocError, Global};
use type_graph::Order;

/// The reference with which octets at a place of a message begin, as the body of a reply of
/// LOCATION_FORWARD is to; none where they begin with no such.
///
/// # Errors
/// Want of memory.
pub fn read_forward(
    types: &GiopTypes,
    alloc: Global,
    order: Order,
    place: u64,
    octets: &[u8],
) -> Result<Option<Ior>, AllocError>
    ensures found { IfOk result (λ o. IfSome o (λ ior. HoldsReference order place octets.now (reference_of ior))) }
    ensures refused { IfOk result (λ o. IfNone o ((reference : Reference)
        → HoldsReference order place octets.now reference → ⊥)) }
{
    let tape = match tape_at(types, alloc, OBJECT, order, place, octets)? {
        Some(tape) => tape,
        None => return Ok(None),
    };
    match reference_in(alloc, tape.as_slice()) {
        Ok(ior) => Ok(Some(ior)),
        Err(fault) => match fault {
            TapeFault::NoMemory => Err(AllocError),
            _ => Ok(None),
        },
    }
}
