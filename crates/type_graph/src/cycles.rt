//! Which type holds itself without a sequence between.

use crate::node::Node;
use std::alloc::{AllocError, Global};

/// A node, and the place of one of the nodes that it holds.
#[derive(Clone, Copy)]
pub struct Held {
    pub node: usize,
    pub place: usize,
}

/// Counts the node's parts once more.
fn hold(holders: &mut [u32], node: &Node) {
    for place in 0..node.held_count() {
        if let Some(part) = node.held_at(place)
            && let Some(count) = holders.get_mut(part as usize)
        {
            *count = count.saturating_add(1);
        }
    }
}

/// Counts the node's parts once less, and adds those that nothing holds any more.
fn let_go(holders: &mut [u32], free: &mut Vec<usize>, node: &Node) -> Result<(), AllocError> {
    for place in 0..node.held_count() {
        if let Some(part) = node.held_at(place)
            && let Some(count) = holders.get_mut(part as usize)
        {
            *count = count.saturating_sub(1);
            if *count == 0 {
                free.push(part as usize)?;
            }
        }
    }
    Ok(())
}

fn holders_of(alloc: Global, nodes: &[Node]) -> Result<Vec<u32>, AllocError> {
    let mut holders = vec![in alloc; 0; nodes.len()]?;
    for node in nodes {
        hold(&mut holders, node);
    }
    Ok(holders)
}

fn free_of(alloc: Global, holders: &[u32]) -> Result<Vec<usize>, AllocError> {
    let mut free = Vec::new(alloc);
    for (number, count) in holders.iter().enumerate() {
        if *count == 0 {
            free.push(number)?;
        }
    }
    Ok(free)
}

/// Takes away node by node that nothing holds: what is left lies below a type that holds itself.
fn held_of(alloc: Global, nodes: &[Node]) -> Result<Vec<u32>, AllocError> {
    let mut holders = holders_of(alloc, nodes)?;
    let mut free = free_of(alloc, &holders)?;
    for _ in 0..nodes.len() {
        if let Some(number) = free.pop()
            && let Some(node) = nodes.get(number)
        {
            let_go(&mut holders, &mut free, node)?;
        }
    }
    Ok(holders)
}

/// Tells each part of a node that this one holds it.
fn tell(by: &mut [Option<Held>], number: usize, node: &Node) {
    for place in 0..node.held_count() {
        if let Some(part) = node.held_at(place)
            && let Some(holder) = by.get_mut(part as usize)
        {
            *holder = Some(Held {
                node: number,
                place,
            });
        }
    }
}

/// For each node that is left one that is left too and holds it.
fn holding(
    alloc: Global,
    nodes: &[Node],
    holders: &[u32],
) -> Result<Vec<Option<Held>>, AllocError> {
    let mut by = vec![in alloc; None; nodes.len()]?;
    for (number, node) in nodes.iter().enumerate() {
        if holders.get(number).is_some_and(|count| *count > 0) {
            tell(&mut by, number, node);
        }
    }
    Ok(by)
}

/// A node that holds itself, and the place at which it does, if there is one: from a node that is
/// left, after as many steps upwards as there are nodes, the way goes round. Each node is looked at
/// a fixed number of times.
pub fn find_cycle(alloc: Global, nodes: &[Node]) -> Result<Option<Held>, AllocError> {
    let holders = held_of(alloc, nodes)?;
    let by = holding(alloc, nodes, &holders)?;
    let mut held = by.iter().find_map(|holder| *holder);
    for _ in 0..nodes.len() {
        let Some(at) = held else {
            return Ok(None);
        };
        held = by.get(at.node).copied().flatten();
    }
    Ok(held)
}
