//! Values between their tapes and their texts. Of a value of the node these calls want memory alone.

ghost use Rattle.std.specs.Prelude.{◌≡◌, ◌<◌, length, IfOk};
ghost use Rattle.std.specs.String.{string_bytes};
ghost use Rattle.type_graph.specs.Value.{Fits, node_at, tape_of};
ghost use Rattle.idl_value.specs.View.{tree_of};
ghost use Rattle.value_text.specs.Tapes.{IsTape, IsTextOfTape};

use crate::fault::PrintFault;
use crate::print;
use idl_value::{Value, ValueFault, pack, unpack};
use std::alloc::{AllocError, Global};
use type_graph::Graph;
use type_model::part_names::PartNames;

/// The tape of a value of a node.
///
/// # Errors
/// Want of memory.
pub fn packed(alloc: Global, graph: &Graph, node: u32, value: &Value) -> Result<Vec<u8>, AllocError>
    requires there { node < length graph.now }
    requires fits { Fits graph.now (node_at graph.now node) (tree_of value.now) 64 }
    ensures { IfOk result (λ tape. tape.items ≡ tape_of graph.now (node_at graph.now node) (tree_of value.now)) }
{
    match pack(alloc, graph, node, value) {
        Ok(tape) => Ok(tape),
        Err(ValueFault::NoMemory) => Err(AllocError),
        Err(_) => unreachable!(),
    }
}

/// The value of a node that has the tape.
fn unpacked(alloc: Global, graph: &Graph, node: u32, tape: &[u8]) -> Result<Value, AllocError>
    requires there { node < length graph.now }
    requires tape { IsTape graph.now node tape.now }
    ensures fits { IfOk result (λ value. Fits graph.now (node_at graph.now node) (tree_of value) 64) }
    ensures tape { IfOk result (λ value. tape_of graph.now (node_at graph.now node) (tree_of value) ≡ tape.now) }
{
    match unpack(alloc, graph, node, tape) {
        Ok(value) => Ok(value),
        Err(ValueFault::NoMemory) => Err(AllocError),
        Err(_) => unreachable!(),
    }
}

/// The text of the value of a node that has the tape.
///
/// # Errors
/// Want of memory.
pub fn printed(
    alloc: Global,
    graph: &Graph,
    names: &PartNames,
    node: u32,
    tape: &[u8],
) -> Result<String, AllocError>
    requires there { node < length graph.now }
    requires tape { IsTape graph.now node tape.now }
    ensures { IfOk result (λ text. IsTextOfTape names.now graph.now node tape.now (string_bytes text)) }
{
    let value = unpacked(alloc, graph, node, tape)?;
    match print(alloc, graph, names, node, &value) {
        Ok(text) => Ok(text),
        Err(PrintFault::NoMemory) => Err(AllocError),
        Err(PrintFault::NotOfType) => unreachable!(),
    }
}
