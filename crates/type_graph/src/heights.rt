//! The heights of nodes: how many steps the longest path downwards has that passes no sequence.

ghost use Rattle.std.specs.Prelude.{◌≡◌, List, None, slice_index_or, IfOk};
ghost use Rattle.type_graph.specs.declared.node.Node.{Node};
ghost use Rattle.type_graph.specs.GraphRules.{held_by};
ghost use Rattle.type_graph.specs.Walks.{above, height_of};
ghost use Rattle.type_graph.specs.Heights.{AreKnown, AreHeights};

use crate::graph::Graph;
use crate::node::Node;
use std::alloc::{AllocError, Global};

/// The height that is known of a node.
fn known_height(known: &[Option<u32>], number: u32) -> Option<u32>
    ensures { result ≡ slice_index_or known.now number None }
{
    known.get(number as usize).copied().flatten()
}

fn keep(known: &mut [Option<u32>], number: u32, height: u32)
    ensures { (graph : List Node) → AreKnown graph known.old → height ≡ height_of graph number
        → AreKnown graph known.new }
{
    if (number as usize) < known.len() {
        known[number as usize] = Some(height);
    }
}

/// The height of a node. What is found is kept, so that a shared part is looked at once.
#[cycle(heights)]
fn find_height(graph: &Graph, known: &mut [Option<u32>], number: u32) -> u32
    ensures value { AreKnown graph.now known.old → result ≡ height_of graph.now number }
    ensures keeps { AreKnown graph.now known.old → AreKnown graph.now known.new }
{
    if let Some(height) = known_height(known, number) {
        return height;
    }
    let Some(node) = graph.nodes().get(number as usize) else {
        return 0;
    };
    let height = height_above(graph, known, node);
    keep(known, number, height);
    height
}

/// One more than the greatest height of what a node holds, or 0.
#[cycle(heights)]
fn height_above(graph: &Graph, known: &mut [Option<u32>], node: &Node) -> u32
    ensures value { AreKnown graph.now known.old → result ≡ above (height_of graph.now) (held_by node.now) }
    ensures keeps { AreKnown graph.now known.old → AreKnown graph.now known.new }
{
    let mut height = 0;
    for place in 0..node.held_count() {
        if let Some(part) = node.held_at(place) {
            height = find_height(graph, known, part)
                .saturating_add(1)
                .max(height);
        }
    }
    height
}

fn find_heights(
    alloc: Global,
    graph: &Graph,
    known: &mut [Option<u32>],
) -> Result<Vec<u32>, AllocError>
    requires { AreKnown graph.now known.old }
    ensures { IfOk result (λ heights. AreHeights graph.now heights.items) }
{
    let mut heights = Vec::new(alloc);
    for number in 0..graph.nodes().len() {
        heights.push(find_height(graph, known, number as u32))?;
    }
    Ok(heights)
}

/// The heights of all nodes, in order.
pub fn heights_of(alloc: Global, graph: &Graph) -> Result<Vec<u32>, AllocError>
    ensures { IfOk result (λ heights. AreHeights graph.now heights.items) }
{
    let mut known = vec![in alloc; None; graph.nodes().len()]?;
    find_heights(alloc, graph, &mut known)
}
