//! Circles, long paths, and lists as large as a file may write.

use crate::{NodeSites, PathFault, find_path_fault};
use idl_tree::names::At;
use std::alloc::{AllocError, Global};
use std::test::Fail;
use type_graph::{Members, Node};

/// As many nodes as a list may have.
const MOST: u32 = 4096;

fn structure(alloc: Global, parts: &[u32]) -> Result<Node, AllocError> {
    let members = Members::new(Vec::from_slice(alloc, parts)?);
    Ok(Node::Struct { members })
}

/// A token in a line of its own.
fn site(number: u32) -> At {
    let token = number as usize;
    At {
        token,
        line: token + 100,
    }
}

/// The fault of so many structures, each of which holds the next at a token of its own. The last holds
/// the number given, past the end an octet.
fn fault_of_chain(alloc: Global, count: u32, last: u32) -> Result<Option<PathFault>, AllocError> {
    let mut nodes = Vec::new(alloc);
    let mut sites = Vec::new(alloc);
    for number in 0..count {
        let part = if number + 1 == count {
            last
        } else {
            number + 1
        };
        nodes.push(structure(alloc, &[part])?)?;
        let at = site(number + 1);
        sites.push(NodeSites::new(at, vec![in alloc; at]?))?;
    }
    find_path_fault(alloc, &nodes, 0, &sites)
}

/// The structures, and the octet that the last one holds.
#[test]
fn paths_have_64_nodes_at_most(rt: HostRuntime) -> Result<(), Fail> {
    let alloc = rt.alloc();
    assert_eq!(rt; fault_of_chain(alloc, 63, 63)?, None);
    let long = Some(PathFault::LongPath { at: site(1) });
    assert_eq!(rt; fault_of_chain(alloc, 64, 64)?, long);
    assert_eq!(rt; fault_of_chain(alloc, 1024, 1024)?, long);
    Ok(())
}

#[test]
fn the_last_member_closes_a_large_circle(rt: HostRuntime) -> Result<(), Fail> {
    let alloc = rt.alloc();
    assert_eq!(rt;
        fault_of_chain(alloc, 1, 0)?,
        Some(PathFault::SelfHeld { at: site(1) })
    );
    assert_eq!(rt;
        fault_of_chain(alloc, 256, 0)?,
        Some(PathFault::SelfHeld { at: site(256) })
    );
    Ok(())
}

/// Structures and sequences in turn, each of which has the next as its member or element, and the last
/// the first: a sequence holds nothing, so no path is long.
#[test]
fn sequences_end_paths(rt: HostRuntime) -> Result<(), Fail> {
    let alloc = rt.alloc();
    let mut nodes = Vec::new(alloc);
    for number in 0..MOST / 2 {
        let elem = (2 * number + 2) % MOST;
        nodes.push(structure(alloc, &[2 * number + 1])?)?;
        nodes.push(Node::Seq { elem, bound: 0 })?;
    }
    assert_eq!(rt; find_path_fault(alloc, &nodes, 0, &[])?, None);
    Ok(())
}
