//! Whether values are of a type.

ghost use Rattle.std.specs.Prelude.{ℕ, ◌<◌, ◌↔◌, List, length, IsTrue};
ghost use Rattle.type_graph.specs.declared.node.Node.{Node};
ghost use Rattle.type_graph.specs.GraphRules.{IsNode};
ghost use Rattle.type_graph.specs.Value.{node_at, Bytes, Items, Choice, IsNumber, Fits, FitAll};
ghost use Rattle.idl_value.specs.View.{tree_of, trees_of, member_of};
ghost use Rattle.idl_value.specs.inner.PartList.{numbers_of, AreWithin};

use crate::numbers::is_count;
use crate::parts::Parts;
use crate::texts::is_text;
use crate::value::Value;
use type_graph::{Graph, Node};

fn is_string(node: &Node, text: &[u8]) -> bool
    ensures { (graph : List Node) (depth : ℕ) → IsTrue result ↔ Fits graph node.now (Bytes text.now) depth }
{
    match node {
        Node::Text { bound } => is_text(*bound, text),
        _ => false,
    }
}

/// Whether a value is one of a node in the graph, with so many sequences still allowed one inside
/// another.
#[cycle(fitting)]
pub fn is_value(graph: &Graph, number: u32, value: &Value, depth: u32) -> bool
    ensures { number < length graph.now → IsTrue result
        ↔ Fits graph.now (node_at graph.now number) (tree_of value.now) depth }
{
    let Some(node) = graph.nodes().get(number as usize) else {
        return false;
    };
    match value {
        Value::Integer(n) => node.has_number(*n),
        Value::Text(text) => is_string(node, text),
        Value::Items(values) => are_items(graph, node, values, depth),
        Value::Choice { disc, member } => is_choice(graph, node, *disc, member, depth),
    }
}

#[cycle(fitting)]
fn are_items(graph: &Graph, node: &Node, values: &[Value], depth: u32) -> bool
    ensures { IsNode graph.now node.now → IsTrue result ↔ Fits graph.now node.now (Items (trees_of values.now)) depth }
{
    match node {
        Node::Seq { elem, bound } => {
            if depth == 0 || !is_count(*bound, values.len()) {
                return false;
            }
            let parts = Parts::Copies {
                number: *elem,
                left: values.len(),
            };
            are_values(graph, parts, values, depth - 1)
        }
        Node::Array { elem, n } => {
            let parts = Parts::Copies {
                number: *elem,
                left: *n as usize,
            };
            are_values(graph, parts, values, depth)
        }
        Node::Struct { members } | Node::Frame { members } => {
            are_values(graph, Parts::Listed(members.as_slice()), values, depth)
        }
        _ => false,
    }
}

/// Whether values are of the nodes of these parts, one of each.
#[cycle(fitting)]
fn are_values(graph: &Graph, parts: Parts<'_>, values: &[Value], depth: u32) -> bool
    ensures { AreWithin graph.now (numbers_of parts.entry) → IsTrue result
        ↔ FitAll graph.now (numbers_of parts.entry) (trees_of values.now) depth }
{
    let mut left = parts;
    for value in values {
        let Some((number, more)) = left.split_first() else {
            return false;
        };
        if !is_value(graph, number, value, depth) {
            return false;
        }
        left = more;
    }
    left.split_first().is_none()
}

#[cycle(fitting)]
fn is_choice(
    graph: &Graph,
    node: &Node,
    disc: i128,
    member: &Option<Box<Value>>,
    depth: u32,
) -> bool
    ensures { IsNode graph.now node.now → IsTrue result
        ↔ Fits graph.now node.now (Choice disc (member_of member.now)) depth }
{
    let Node::Union {
        switch,
        arms,
        default,
    } = node
    else {
        return false;
    };
    if !is_switch_value(graph, *switch, disc) {
        return false;
    }
    match (arms.chosen(*default, disc), member) {
        (Some(number), Some(value)) => is_value(graph, number, value, depth),
        (None, None) => true,
        _ => false,
    }
}

fn is_switch_value(graph: &Graph, switch: u32, disc: i128) -> bool
    ensures { switch < length graph.now → IsTrue result ↔ IsNumber (node_at graph.now switch) disc }
{
    match graph.nodes().get(switch as usize) {
        Some(node) => node.has_number(disc),
        None => false,
    }
}
