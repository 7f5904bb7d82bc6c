//! Tapes of bodies.

ghost use Rattle.std.specs.Prelude.{IfOk, IfSome, IfNone, IsTrue};
ghost use Rattle.type_graph.specs.Value.{Tree};
ghost use Rattle.giop_types.specs.Named.{has_name};
ghost use Rattle.giop.specs.Bodies.{BeginsWith};
ghost use Rattle.giop.specs.inner.ReplyBodiesTapes.{HasTape};

use giop_types::GiopTypes;
use std::alloc::{AllocError, Global};
use type_graph::Order;

/// The tape of the value of a node with which octets at a place begin; none where they begin with
/// no value of it.
pub(crate) fn tape_at(
    types: &GiopTypes,
    alloc: Global,
    node: u32,
    order: Order,
    place: u64,
    octets: &[u8],
) -> Result<Option<Vec<u8>>, AllocError>
    requires { IsTrue (has_name node) }
    ensures found { IfOk result (λ o. IfSome o (λ tape. HasTape order node place octets.now tape.items)) }
    ensures refused { IfOk result (λ o. IfNone o ((value : Tree)
        → BeginsWith order node place value octets.now → ⊥)) }
{
    match types.find(alloc, node, order, place, octets)? {
        Some((tape, _)) => Ok(Some(tape)),
        None => Ok(None),
    }
}
