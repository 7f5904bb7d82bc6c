//! How encapsulations are written: what they have beside their values.

ghost use Rattle.std.specs.Prelude.{◌≡◌, ℕ, List, IfOk, IfErr, IsTrue};
ghost use Rattle.std.specs.Bool.{OnFalse};
ghost use Rattle.type_graph.specs.Value.{Tree};
ghost use Rattle.type_graph.specs.Words.{reading};
ghost use Rattle.type_graph.specs.Encoding.{Means};
ghost use Rattle.giop_types.specs.GiopNodes.{giop_nodes};
ghost use Rattle.giop_types.specs.Named.{has_name};
ghost use Rattle.reference_texts.specs.Encapsulations.{Encapsulates, IsSo, differences};
ghost use Rattle.reference_texts.specs.Manners.{manner_of as the_manner};
ghost use Rattle.reference_texts.specs.Refusal.{wants_memory};
ghost use Rattle.reference_texts.specs.inner.Gaps.{AreGaps};

use crate::encapsulation::split_flag;
use crate::fault::ReferenceFault;
use giop_types::GiopTypes;
use program_runner::RunFault;
use std::alloc::{AllocError, Global};
use type_graph::Order as ByteOrder;

/// Where the value behind the flag stands.
const BEHIND_FLAG: u64 = 1;

/// What an encapsulation has beside its value.
#[derive(Drop)]
pub struct Manner {
    pub order: ByteOrder,
    /// The octets of gaps that aren't zero, each with its place in the encapsulation.
    pub gaps: Vec<(usize, u8)>,
    /// The octets behind the value.
    pub behind: Vec<u8>,
}

/// Where octets behind a flag differ from others.
fn differing(alloc: Global, clean: &[u8], front: &[u8]) -> Result<Vec<(usize, u8)>, AllocError>
    ensures { IfOk result (λ all. all.items ≡ differences 1 clean.now front.now) }
{
    let mut all = Vec::new(alloc);
    for place in 0..clean.len().min(front.len()) {
        if clean[place] != front[place] {
            match all.push((place + 1, front[place])) {
                Ok(()) => (),
                Err(_) => return Err(AllocError),
            }
        }
    }
    Ok(all)
}

/// The octets that stand in the gaps of a value, but for zeros: what is written of its tape has zeros there.
fn gaps_in(
    types: &GiopTypes,
    alloc: Global,
    node: u32,
    order: ByteOrder,
    tape: &[u8],
    front: &[u8],
) -> Result<Vec<(usize, u8)>, AllocError>
    requires named { IsTrue (has_name node) }
    requires read { Means giop_nodes (reading order) 64 node 1 tape.now front.now }
    ensures { IfOk result (λ gaps. AreGaps order node tape.now front.now gaps.items) }
{
    match types.write(alloc, node, order, BEHIND_FLAG, tape) {
        Ok(clean) => differing(alloc, clean.as_slice(), front),
        Err(fault) => match fault {
            RunFault::NoMemory => Err(AllocError),
            _ => unreachable!(),
        },
    }
}

/// What an encapsulation that begins with a value of a node has beside it.
///
/// # Errors
/// `BadIor` where it begins with none. Want of memory.
pub fn manner_of(
    types: &GiopTypes,
    alloc: Global,
    node: u32,
    octets: &[u8],
) -> Result<Manner, ReferenceFault>
    requires { IsTrue (has_name node) }
    ensures found { IfOk result (λ manner. IsSo node (the_manner manner) octets.now) }
    ensures refused { IfErr result (λ fault. OnFalse (wants_memory fault)
        ((value : Tree) → Encapsulates node value octets.now → ⊥)) }
{
    let Some((order, inside)) = split_flag(octets) else {
        return Err(ReferenceFault::BadIor);
    };
    let (tape, taken) = match types.read(alloc, node, order, BEHIND_FLAG, inside) {
        Ok(read) => read,
        Err(fault) => return Err(ReferenceFault::from(fault)),
    };
    let (front, behind) = inside.split_at(taken);
    let gaps = gaps_in(types, alloc, node, order, tape.as_slice(), front)?;
    let behind = Vec::from_slice(alloc, behind)?;
    Ok(Manner {
        order,
        gaps,
        behind,
    })
}
