//! The tapes of values.

ghost use Rattle.std.specs.Prelude.{◌≡◌, ◌<◌, ◌++◌, length, OnOk};
ghost use Rattle.type_graph.specs.declared.width.Order.TheVariants.{Big};
ghost use Rattle.type_graph.specs.Words.{word};
ghost use Rattle.type_graph.specs.GraphRules.{IsNode};
ghost use Rattle.type_graph.specs.Value.{node_at, IsNumber, number_width, Items, Choice};
ghost use Rattle.idl_value.specs.View.{tree_of, trees_of, member_of};
ghost use Rattle.idl_value.specs.inner.PartList.{numbers_of, AreWithin};
ghost use Rattle.idl_value.specs.inner.Packing.{AddsValue, AddsValues};

use crate::numbers::{push_count, push_number};
use crate::parts::Parts;
use crate::texts::push_text;
use crate::value::Value;
use std::alloc::AllocError;
use type_graph::{Graph, Node};

/// Puts the tape of a value of a node behind a tape.
#[cycle(packing)]
pub fn push_value(
    tape: &mut Vec<u8>,
    graph: &Graph,
    number: u32,
    value: &Value,
) -> Result<(), AllocError>
    ensures { OnOk result (number < length graph.now
        → AddsValue graph.now (node_at graph.now number) (tree_of value.now) tape.old.items tape.new.items) }
{
    let Some(node) = graph.nodes().get(number as usize) else {
        return Ok(());
    };
    match value {
        Value::Integer(n) => push_number(tape, node, *n),
        Value::Text(text) => push_text(tape, text),
        Value::Items(values) => push_items(tape, graph, node, values),
        Value::Choice { disc, member } => push_choice(tape, graph, node, *disc, member),
    }
}

/// Puts the tape of an array, a sequence, a structure or a frame behind a tape.
#[cycle(packing)]
fn push_items(
    tape: &mut Vec<u8>,
    graph: &Graph,
    node: &Node,
    values: &[Value],
) -> Result<(), AllocError>
    ensures { OnOk result (IsNode graph.now node.now
        → AddsValue graph.now node.now (Items (trees_of values.now)) tape.old.items tape.new.items) }
{
    match node {
        Node::Seq { elem, .. } => {
            push_count(tape, values.len())?;
            let parts = Parts::Copies {
                number: *elem,
                left: values.len(),
            };
            push_values(tape, graph, parts, values)
        }
        Node::Array { elem, n } => {
            let parts = Parts::Copies {
                number: *elem,
                left: *n as usize,
            };
            push_values(tape, graph, parts, values)
        }
        Node::Struct { members } | Node::Frame { members } => {
            push_values(tape, graph, Parts::Listed(members.as_slice()), values)
        }
        _ => Ok(()),
    }
}

#[cycle(packing)]
fn push_values(
    tape: &mut Vec<u8>,
    graph: &Graph,
    parts: Parts<'_>,
    values: &[Value],
) -> Result<(), AllocError>
    ensures { OnOk result (AreWithin graph.now (numbers_of parts.entry)
        → AddsValues graph.now (numbers_of parts.entry) (trees_of values.now) tape.old.items tape.new.items) }
{
    let mut left = parts;
    for value in values {
        let Some((number, more)) = left.split_first() else {
            break;
        };
        push_value(tape, graph, number, value)?;
        left = more;
    }
    Ok(())
}

#[cycle(packing)]
fn push_choice(
    tape: &mut Vec<u8>,
    graph: &Graph,
    node: &Node,
    disc: i128,
    member: &Option<Box<Value>>,
) -> Result<(), AllocError>
    ensures { OnOk result (IsNode graph.now node.now
        → AddsValue graph.now node.now (Choice disc (member_of member.now)) tape.old.items tape.new.items) }
{
    let Node::Union {
        switch,
        arms,
        default,
    } = node
    else {
        return Ok(());
    };
    push_switch(tape, graph, *switch, disc)?;
    match (arms.chosen(*default, disc), member) {
        (Some(number), Some(value)) => push_value(tape, graph, number, value),
        _ => Ok(()),
    }
}

fn push_switch(tape: &mut Vec<u8>, graph: &Graph, switch: u32, disc: i128) -> Result<(), AllocError>
    ensures { OnOk result (switch < length graph.now → IsNumber (node_at graph.now switch) disc
        → tape.new.items ≡ tape.old.items ++ word Big (number_width (node_at graph.now switch)) disc) }
{
    match graph.nodes().get(switch as usize) {
        Some(node) => push_number(tape, node, disc),
        None => Ok(()),
    }
}
