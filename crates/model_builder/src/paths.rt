//! The paths of a file's types: none goes round, and none is too long.

ghost use Rattle.std.specs.Prelude.{◌≡◌, EachIndex, IfErr, IfOk, OnOk};
ghost use Rattle.type_graph.specs.GraphRules.{IsGraph, IsShallow};
ghost use Rattle.model_builder.specs.Faults.{IsRefusedBehind, path_told};
ghost use Rattle.model_builder.specs.declared.fault.ModelFault.TheVariants.{NoMemory};

use crate::fault::ModelFault;
use lowered_types::{TypeFault, TypeTable};
use std::alloc::Global;
use type_graph::basic_types::BASIC_NODES;
use type_graph::{Graph, GraphFault, GraphLimit, Node};
use type_paths::{PathFault, find_path_fault};

/// The most nodes of a path.
const MAX_PATH: u32 = 64;

/// What is told of a path.
fn path_fault(fault: PathFault) -> TypeFault
    ensures { result ≡ path_told fault }
{
    match fault {
        PathFault::SelfHeld { at } => TypeFault::SelfHeld { at },
        PathFault::LongPath { at } => TypeFault::Limit {
            which: GraphLimit::Path,
            most: MAX_PATH,
            at,
        },
    }
}

/// Whether the paths of the types are short enough.
///
/// # Errors
/// A type that holds itself, too long a path; want of memory.
pub(crate) fn check_paths(alloc: Global, types: &TypeTable) -> Result<(), ModelFault>
    ensures shallow { OnOk result (EachIndex types.now.nodes (IsShallow 64 types.now.nodes)) }
    ensures refused { IfErr result (IsRefusedBehind types.now) }
{
    match find_path_fault(alloc, types.nodes(), BASIC_NODES as usize, types.sites())? {
        Some(fault) => Err(ModelFault::Types(path_fault(fault))),
        None => Ok(()),
    }
}

/// The graph of nodes that keep its rules.
///
/// # Errors
/// Want of memory.
pub(crate) fn graph_of(alloc: Global, nodes: Vec<Node>) -> Result<Graph, ModelFault>
    requires { IsGraph nodes.items }
    ensures kept { IfOk result (λ graph. graph ≡ nodes.items) }
    ensures memory { IfErr result (λ fault. fault ≡ NoMemory) }
{
    match Graph::from_nodes(alloc, nodes) {
        Ok(graph) => Ok(graph),
        Err(GraphFault::NoMemory) => Err(ModelFault::NoMemory),
        Err(_) => unreachable!(),
    }
}
