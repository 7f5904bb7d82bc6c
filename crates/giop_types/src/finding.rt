//! Values that may not be there.

ghost use Rattle.std.specs.Prelude.{◌≡◌, ◌≤◌, ◌++◌, ℕ, List, length, take, IfOk, IfSome, IfNone};
ghost use Rattle.type_graph.specs.Words.{reading};
ghost use Rattle.type_graph.specs.Encoding.{Means};
ghost use Rattle.type_model.specs.Names.{IsNamed};

use position_checker::Accepted;
use program_runner::RunFault;
use std::alloc::{AllocError, Global};
use type_graph::Order;

/// What `Accepted::read` reads; none where no front of the octets encodes a value of the node.
///
/// # Errors
/// Want of memory.
pub fn find_value(
    table: &Accepted,
    alloc: Global,
    node: u32,
    order: Order,
    pos: u64,
    octets: &[u8],
) -> Result<Option<(Vec<u8>, usize)>, AllocError>
    requires { IsNamed table.now.model.names node }
    ensures found { IfOk result (λ o. IfSome o (λ r.
        Means table.now.model.graph (reading order) 64 node pos r.0.items (take r.1 octets.now))) }
    ensures within { IfOk result (λ o. IfSome o (λ r. r.1 ≤ length octets.now)) }
    ensures none { IfOk result (λ o. IfNone o ((tape front rest : List ℕ) → octets.now ≡ front ++ rest
        → Means table.now.model.graph (reading order) 64 node pos tape front → ⊥)) }
{
    match table.read(alloc, node, order, pos, octets) {
        Ok(found) => Ok(Some(found)),
        Err(fault) => match fault {
            RunFault::NoMemory => Err(AllocError),
            _ => Ok(None),
        },
    }
}
