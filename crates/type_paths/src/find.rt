//! What is wrong with the paths of a list of types.

ghost use Rattle.std.specs.Prelude.{EachIndex, IfNone, IfOk, IfSome};
ghost use Rattle.type_graph.specs.GraphRules.{IsShallow};
ghost use Rattle.type_paths.specs.Paths.{IsFaultOf, IsPathFault};

use crate::circles::{closing_token, goes_round};
use crate::fault::PathFault;
use crate::levels::{first_in, paths_by};
use crate::sited::Sited;
use crate::sites::NodeSites;
use idl_tree::names::At;
use std::alloc::{AllocError, Global};
use type_graph::Node;

const MAX_PATH: usize = 64;

fn find_fault_of(alloc: Global, types: &Sited<'_>) -> Result<Option<PathFault>, AllocError>
    ensures none { IfOk result (λ found. IfNone found (EachIndex types.now.nodes (IsShallow 64 types.now.nodes))) }
    ensures some { IfOk result (λ found. IfSome found (IsFaultOf types.now)) }
{
    let greatest = types.greatest();
    let deep = paths_by(alloc, types, greatest, MAX_PATH)?;
    let Some(node) = first_in(&deep) else {
        return Ok(None);
    };
    if !goes_round(alloc, types, greatest)? {
        let at = types.own_at(node);
        return Ok(Some(PathFault::LongPath { at }));
    }
    let token = closing_token(alloc, types, greatest)?;
    let line = types.line_of(token);
    let at = At { token, line };
    Ok(Some(PathFault::SelfHeld { at }))
}

/// What is wrong with the paths of nodes: a type that holds itself, at the first token at which
/// the members up to there go round, else the first type from which a path of more than 64 nodes leads.
/// `sites` has the sites of the nodes from the number `first` on; what a node below it holds counts
/// as at token 0.
///
/// # Errors
/// Want of memory.
pub fn find_path_fault(
    alloc: Global,
    nodes: &[Node],
    first: usize,
    sites: &[NodeSites],
) -> Result<Option<PathFault>, AllocError>
    ensures none { IfOk result (λ found. IfNone found (EachIndex nodes.now (IsShallow 64 nodes.now))) }
    ensures some { IfOk result (λ found. IfSome found (IsPathFault nodes.now first sites.now)) }
{
    let types = Sited {
        nodes,
        first,
        sites,
    };
    find_fault_of(alloc, &types)
}
