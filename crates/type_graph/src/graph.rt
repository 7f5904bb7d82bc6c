//! The graph of types: a list of nodes that keeps the rules of a graph.

ghost use Rattle.std.specs.Prelude.{◌≡◌, ◌<◌, ℕ, length, slice_get, IfSome, IfNone, IfOk, IfErr, Some};
ghost use Rattle.std.specs.Bool.{OnFalse};
ghost use Rattle.type_graph.specs.GraphRules.{IsNode, IsGraph};
ghost use Rattle.type_graph.specs.Refusal.{wants_memory};
ghost use Rattle.type_graph.specs.declared.width.Width.{Width};
ghost use Rattle.type_graph.specs.Value.{node_at, tape_of};
ghost use Rattle.type_graph.specs.Walks.{lead_of};
ghost use Rattle.type_graph.specs.Heights.{AreHeights};
ghost use Rattle.type_graph.specs.Leaves.{IsUniform};
ghost use Rattle.type_graph.specs.Zero.{zero_of};

use crate::fault::GraphFault;
use crate::heights::heights_of;
use crate::node::Node;
use crate::rules::find_fault;
use crate::shape::{Run, Shape, lead_from, shape_at, shapes_of, zeros};
use crate::width::Width;
use std::alloc::{AllocError, Global};
use std::marker::Model;

/// The types of a specification, each named by its place in the list of nodes. A contract sees a
/// graph as that list.
#[derive(Drop)]
pub struct Graph {
    nodes: Vec<Node>,
    shapes: Vec<Shape>,
}

impl Model for Graph {
    ghost use Rattle.std.specs.Prelude.{List};
    ghost use Rattle.type_graph.specs.declared.node.Node.{Node};

    ghost Value = { List Node };

    ghost use Rattle.type_graph.specs.GraphRules.{IsGraph};
    ghost use Rattle.type_graph.specs.inner.Shapes.{AreShapesWithin};

    ghost view = { λ g. g.nodes.items };

    ghost invariant = { λ g. IsGraph g.nodes.items × AreShapesWithin 64 g.nodes.items g.shapes.items };
}

impl Graph {
    /// The graph of just these nodes.
    ///
    /// # Errors
    /// The fault of a rule that they break, or want of memory.
    pub fn from_nodes(alloc: Global, nodes: Vec<Node>) -> Result<Graph, GraphFault>
        ensures kept { IfOk result (λ graph. graph ≡ nodes.items) }
        ensures rules { IfOk result IsGraph }
        ensures refused { IfErr result (λ fault. OnFalse (wants_memory fault) (IsGraph nodes.items → ⊥)) }
    {
        if let Some(fault) = find_fault(alloc, &nodes)? {
            return Err(fault.at_line(0));
        }
        let shapes = shapes_of(alloc, &nodes)?;
        Ok(Graph { nodes, shapes })
    }

    /// All nodes, in order.
    pub fn nodes(&self) -> &[Node]
        ensures value { result.now ≡ self.now }
        ensures rules { IsGraph self.now }
    {
        self.nodes.as_slice()
    }

    /// The node of a number.
    pub fn node(&self, number: u32) -> &Node
        requires { number < length self.now }
        ensures value { slice_get self.now number ≡ Some result.now }
        ensures node_rules { IsNode self.now result.now }
        ensures rules { IsGraph self.now }
    {
        &self.nodes[number as usize]
    }

    /// The alignment with which the octets of the node's values begin. Takes no memory.
    pub fn lead(&self, number: u32) -> Width
        requires { number < length self.now }
        ensures { result ≡ lead_of self.now number }
    {
        lead_from(&self.nodes, number)
    }

    /// The height of each node, in order: how many steps the longest path downwards from it has
    /// that passes no sequence. Each node is looked at once, however parts are shared.
    ///
    /// # Errors
    /// Want of memory.
    pub fn heights(&self, alloc: Global) -> Result<Vec<u32>, AllocError>
        ensures { IfOk result (λ heights. AreHeights self.now heights.items) }
    {
        heights_of(alloc, self)
    }

    /// The width and number of the words that the node's values are, where each is that: a node
    /// made by arrays, structures and frames alone of integers of one width, or of octets and
    /// characters, at least one and at most 1,048,576 of them. Takes no memory.
    pub fn uniform(&self, number: u32) -> Option<(Width, u32)>
        requires { number < length self.now }
        ensures some { IfSome result (λ words. IsUniform self.now words.0 words.1 number) }
        ensures none { IfNone result ((w : Width) (n : ℕ) → IsUniform self.now w n number → ⊥) }
    {
        match shape_at(&self.shapes, number).run {
            Run::Words(width, n) => Some((width, n)),
            Run::Empty | Run::Mixed => None,
        }
    }

    /// The tape of the value of zeros: numbers are 0, strings and sequences empty, and the
    /// discriminator 0 chooses a union's member.
    ///
    /// # Errors
    /// Want of memory.
    pub fn zero(&self, alloc: Global, number: u32) -> Result<Vec<u8>, AllocError>
        requires { number < length self.now }
        ensures { IfOk result (λ tape. tape.items
            ≡ tape_of self.now (node_at self.now number) (zero_of self.now number)) }
    {
        zeros(alloc, shape_at(&self.shapes, number).size)
    }
}
