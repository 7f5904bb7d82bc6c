//! Values in encapsulations, read and written as tapes.

ghost use Rattle.std.specs.Prelude.{◌≡◌, ◌∷◌, ℕ, List, IfOk, IfErr, IfSome, IfNone, IsTrue};
ghost use Rattle.std.specs.Bool.{OnFalse};
ghost use Rattle.type_graph.specs.declared.width.Order.{Order};
ghost use Rattle.type_graph.specs.Value.{Tree};
ghost use Rattle.giop_types.specs.Named.{has_name};
ghost use Rattle.reference_texts.specs.Encapsulations.{Encapsulates, flag_of, HasTape, IsOfTape};
ghost use Rattle.reference_texts.specs.Refusal.{wants_memory};

use crate::fault::ReferenceFault;
use giop_types::GiopTypes;
use std::alloc::Global;
use type_graph::Order as ByteOrder;

/// The flag of big order.
const BIG: u8 = 0;

/// Where the value behind the flag stands.
const BEHIND_FLAG: u64 = 1;

/// The byte order that a flag tells.
fn order_of(flag: u8) -> Option<ByteOrder>
    ensures found { IfSome result (λ order. flag ≡ flag_of order) }
    ensures refused { IfNone result ((order : Order) → flag ≡ flag_of order → ⊥) }
{
    match flag {
        0 => Some(ByteOrder::Big),
        1 => Some(ByteOrder::Little),
        _ => None,
    }
}

/// The byte order of an encapsulation, and the octets behind its flag.
pub fn split_flag(octets: &[u8]) -> Option<(ByteOrder, &[u8])>
    ensures found { IfSome result (λ r. octets.now ≡ flag_of r.0 ∷ r.1.now) }
    ensures refused { IfNone result ((order : Order) (rest : List ℕ) → octets.now ≡ flag_of order ∷ rest → ⊥) }
{
    let Some((flag, rest)) = octets.split_first() else {
        return None;
    };
    match order_of(*flag) {
        Some(order) => Some((order, rest)),
        None => None,
    }
}

/// The tape of the value of a node that an encapsulation begins with.
pub(crate) fn read_encapsulation(
    types: &GiopTypes,
    alloc: Global,
    node: u32,
    octets: &[u8],
) -> Result<Vec<u8>, ReferenceFault>
    requires { IsTrue (has_name node) }
    ensures found { IfOk result (λ tape. HasTape node octets.now tape.items) }
    ensures refused { IfErr result (λ fault. OnFalse (wants_memory fault)
        ((value : Tree) → Encapsulates node value octets.now → ⊥)) }
{
    let Some((order, behind)) = split_flag(octets) else {
        return Err(ReferenceFault::BadIor);
    };
    match types.read(alloc, node, order, BEHIND_FLAG, behind) {
        Ok((tape, _)) => Ok(tape),
        Err(fault) => Err(ReferenceFault::from(fault)),
    }
}

/// The encapsulation, in big order, of the value of a node that the whole tape is.
pub(crate) fn write_encapsulation(
    types: &GiopTypes,
    alloc: Global,
    node: u32,
    tape: &[u8],
) -> Result<Vec<u8>, ReferenceFault>
    requires { IsTrue (has_name node) }
    ensures written { IfOk result (λ octets. IsOfTape node tape.now octets.items) }
    ensures refused { IfErr result (λ fault. OnFalse (wants_memory fault)
        ((octets : List ℕ) → IsOfTape node tape.now octets → ⊥)) }
{
    let mut octets = match types.write(alloc, node, ByteOrder::Big, BEHIND_FLAG, tape) {
        Ok(body) => body,
        Err(fault) => return Err(ReferenceFault::from(fault)),
    };
    match octets.insert(0, BIG) {
        Ok(()) => Ok(octets),
        Err(_) => Err(ReferenceFault::NoMemory),
    }
}
