//! Values of IDL types outside any program, and their tapes.
#![tactic(auto)]

ghost use Rattle.std.specs.Prelude.{◌≡◌, ◌<◌, ◌↔◌, length, IsTrue, IfOk, IfErr, OnOk, IsErrOf};
ghost use Rattle.type_graph.specs.Value.{Tree, node_at, Fits, tape_of};
ghost use Rattle.idl_value.specs.View.{tree_of};
ghost use Rattle.idl_value.specs.Refusal.{RefusesTape};

pub mod fault;
mod fitting;
pub mod laws;
mod numbers;
mod packing;
mod parts;
mod texts;
mod unpacking;
pub mod value;

use crate::fitting::is_value;
use crate::packing::push_value;
use crate::unpacking::read_value;
pub use fault::ValueFault;
use std::alloc::Global;
use type_graph::Graph;
pub use value::Value;

/// How many sequences may stand one inside another.
const MAX_DEPTH: u32 = 64;

/// Whether a value is one of a node. Takes no memory.
pub fn conforms(graph: &Graph, node: u32, value: &Value) -> bool
    requires { node < length graph.now }
    ensures { IsTrue result ↔ Fits graph.now (node_at graph.now node) (tree_of value.now) 64 }
{
    is_value(graph, node, value, MAX_DEPTH)
}

/// The tape of a value of a node.
///
/// # Errors
/// `NotOfType` exactly where the value isn't one of the node, or want of memory.
pub fn pack(alloc: Global, graph: &Graph, node: u32, value: &Value) -> Result<Vec<u8>, ValueFault>
    requires { node < length graph.now }
    ensures fits { OnOk result (Fits graph.now (node_at graph.now node) (tree_of value.now) 64) }
    ensures tape { IfOk result (λ tape. tape.items ≡ tape_of graph.now (node_at graph.now node) (tree_of value.now)) }
    ensures not_of_type { IsErrOf result ValueFault.NotOfType
        ↔ ¬ Fits graph.now (node_at graph.now node) (tree_of value.now) 64 }
    ensures never_not_a_tape { ¬ IsErrOf result ValueFault.NotATape }
{
    if !conforms(graph, node, value) {
        return Err(ValueFault::NotOfType);
    }
    let mut tape = Vec::new(alloc);
    push_value(&mut tape, graph, node, value)?;
    Ok(tape)
}

/// The value of a node that has this tape, the whole of it.
///
/// # Errors
/// `NotATape` only where no value of the node has this tape, or want of memory.
pub fn unpack(alloc: Global, graph: &Graph, node: u32, tape: &[u8]) -> Result<Value, ValueFault>
    requires { node < length graph.now }
    ensures fits { IfOk result (λ value. Fits graph.now (node_at graph.now node) (tree_of value) 64) }
    ensures tape { IfOk result (λ value. tape_of graph.now (node_at graph.now node) (tree_of value) ≡ tape.now) }
    ensures refused { IfErr result (λ fault. RefusesTape fault ((value : Tree)
        → Fits graph.now (node_at graph.now node) value 64
        → tape_of graph.now (node_at graph.now node) value ≡ tape.now → ⊥)) }
{
    let (value, rest) = read_value(alloc, graph, node, tape, MAX_DEPTH)?;
    if !rest.is_empty() {
        return Err(ValueFault::NotATape);
    }
    Ok(value)
}
