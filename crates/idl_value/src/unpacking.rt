//! The values of tapes.

ghost use Rattle.std.specs.Prelude.{◌<◌, ℕ, List, length, IfOk, IfErr};
ghost use Rattle.type_graph.specs.declared.node.Node.{Node};
ghost use Rattle.type_graph.specs.declared.node.Node.TheVariants.{Text, Seq, Union};
ghost use Rattle.type_graph.specs.GraphRules.{IsNode, IsGraph};
ghost use Rattle.type_graph.specs.Value.{IsNumeric, node_at};
ghost use Rattle.idl_value.specs.View.{tree_of, trees_of};
ghost use Rattle.idl_value.specs.inner.PartList.{numbers_of, AreWithin};
ghost use Rattle.idl_value.specs.Refusal.{RefusesTape};
ghost use Rattle.idl_value.specs.inner.Unpacking.{IsItems, Begins, BeginsWithNone, BeginsAll, BeginsAllWithNone};

use crate::fault::ValueFault;
use crate::numbers::{is_count, read_count, read_number};
use crate::parts::Parts;
use crate::texts::read_text;
use crate::value::Value;
use std::alloc::Global;
use type_graph::{Arms, Graph, Node};

/// An integer, octet, character, boolean or enumerator at the front, and the rest.
fn read_whole<'t>(node: &Node, tape: &'t [u8]) -> Result<(Value, &'t [u8]), ValueFault>
    ensures found { IfOk result (λ r. (graph : List Node) (depth : ℕ) → IsNumeric node.now
        → Begins graph node.now depth tape.entry.now (tree_of r.0) r.1.now) }
    ensures refused { IfErr result (λ fault. RefusesTape fault ((graph : List Node) (depth : ℕ) → IsNode graph node.now
        → IsNumeric node.now → BeginsWithNone graph node.now depth tape.entry.now)) }
{
    let Some((n, rest)) = read_number(node, tape) else {
        return Err(ValueFault::NotATape);
    };
    Ok((Value::Integer(n), rest))
}

/// A string at the front, and the rest.
fn read_string(alloc: Global, bound: u32, tape: &[u8]) -> Result<(Value, &[u8]), ValueFault>
    ensures found { IfOk result (λ r. (graph : List Node) (depth : ℕ)
        → Begins graph (Text bound) depth tape.now (tree_of r.0) r.1.now) }
    ensures refused { IfErr result (λ fault. RefusesTape fault ((graph : List Node) (depth : ℕ)
        → BeginsWithNone graph (Text bound) depth tape.now)) }
{
    let Some((text, rest)) = read_text(bound, tape) else {
        return Err(ValueFault::NotATape);
    };
    let text = text.to_vec(alloc)?;
    Ok((Value::Text(text), rest))
}

/// The value of a node at the front of a tape, and the rest, with so many sequences still allowed
/// one inside another.
#[cycle(unpacking)]
pub fn read_value<'t>(
    alloc: Global,
    graph: &Graph,
    number: u32,
    tape: &'t [u8],
    depth: u32,
) -> Result<(Value, &'t [u8]), ValueFault>
    ensures rules { IsGraph graph.now }
    ensures found { IfOk result (λ r. number < length graph.now
        → Begins graph.now (node_at graph.now number) depth tape.entry.now (tree_of r.0) r.1.now) }
    ensures refused { IfErr result (λ fault. number < length graph.now
        → RefusesTape fault (BeginsWithNone graph.now (node_at graph.now number) depth tape.entry.now)) }
{
    let Some(node) = graph.nodes().get(number as usize) else {
        return Err(ValueFault::NotATape);
    };
    match node {
        Node::Text { bound } => read_string(alloc, *bound, tape),
        Node::Seq { elem, bound } => read_sequence(alloc, graph, *elem, *bound, tape, depth),
        Node::Array { elem, n } => {
            let parts = Parts::Copies {
                number: *elem,
                left: *n as usize,
            };
            read_items(alloc, graph, parts, tape, depth)
        }
        Node::Struct { members } | Node::Frame { members } => {
            read_items(alloc, graph, Parts::Listed(members.as_slice()), tape, depth)
        }
        Node::Union {
            switch,
            arms,
            default,
        } => read_choice(alloc, graph, *switch, arms, *default, tape, depth),
        _ => read_whole(node, tape),
    }
}

#[cycle(unpacking)]
fn read_sequence<'t>(
    alloc: Global,
    graph: &Graph,
    elem: u32,
    bound: u32,
    tape: &'t [u8],
    depth: u32,
) -> Result<(Value, &'t [u8]), ValueFault>
    ensures found { IfOk result (λ r. IsGraph graph.now → IsNode graph.now (Seq elem bound)
        → Begins graph.now (Seq elem bound) depth tape.entry.now (tree_of r.0) r.1.now) }
    ensures refused { IfErr result (λ fault. IsGraph graph.now → IsNode graph.now (Seq elem bound)
        → RefusesTape fault (BeginsWithNone graph.now (Seq elem bound) depth tape.entry.now)) }
{
    if depth == 0 {
        return Err(ValueFault::NotATape);
    }
    let Some((count, rest)) = read_count(tape) else {
        return Err(ValueFault::NotATape);
    };
    if !is_count(bound, count) {
        return Err(ValueFault::NotATape);
    }
    // Each element takes an octet at least.
    if count > rest.len() {
        return Err(ValueFault::NotATape);
    }
    let parts = Parts::Copies {
        number: elem,
        left: count,
    };
    let (values, rest) = read_values(alloc, graph, parts, rest, depth - 1)?;
    Ok((Value::Items(values), rest))
}

/// The elements of an array or the members of a structure or a frame at the front, and the rest.
#[cycle(unpacking)]
fn read_items<'t>(
    alloc: Global,
    graph: &Graph,
    parts: Parts<'_>,
    tape: &'t [u8],
    depth: u32,
) -> Result<(Value, &'t [u8]), ValueFault>
    ensures found { IfOk result (λ r. IsGraph graph.now → AreWithin graph.now (numbers_of parts.entry)
        → IsItems graph.now (numbers_of parts.entry) depth tape.entry.now (tree_of r.0) r.1.now) }
    ensures refused { IfErr result (λ fault. IsGraph graph.now → AreWithin graph.now (numbers_of parts.entry)
        → RefusesTape fault (BeginsAllWithNone graph.now (numbers_of parts.entry) depth tape.entry.now)) }
{
    let (values, rest) = read_values(alloc, graph, parts, tape, depth)?;
    Ok((Value::Items(values), rest))
}

/// Values of the nodes of these parts at the front, one of each, and the rest.
#[cycle(unpacking)]
fn read_values<'t>(
    alloc: Global,
    graph: &Graph,
    parts: Parts<'_>,
    tape: &'t [u8],
    depth: u32,
) -> Result<(Vec<Value>, &'t [u8]), ValueFault>
    ensures found { IfOk result (λ r. IsGraph graph.now → AreWithin graph.now (numbers_of parts.entry)
        → BeginsAll graph.now (numbers_of parts.entry) depth tape.entry.now (trees_of r.0.items) r.1.now) }
    ensures refused { IfErr result (λ fault. IsGraph graph.now → AreWithin graph.now (numbers_of parts.entry)
        → RefusesTape fault (BeginsAllWithNone graph.now (numbers_of parts.entry) depth tape.entry.now)) }
{
    let mut values = Vec::new(alloc);
    let mut rest = tape;
    let mut left = parts;
    while let Some((number, more)) = left.split_first() {
        let (value, behind) = read_value(alloc, graph, number, rest, depth)?;
        values.push(value)?;
        rest = behind;
        left = more;
    }
    Ok((values, rest))
}

#[cycle(unpacking)]
fn read_choice<'t>(
    alloc: Global,
    graph: &Graph,
    switch: u32,
    arms: &Arms,
    default: Option<u32>,
    tape: &'t [u8],
    depth: u32,
) -> Result<(Value, &'t [u8]), ValueFault>
    ensures found { IfOk result (λ r. IsNode graph.now (Union switch arms.now default)
        → Begins graph.now (Union switch arms.now default) depth tape.entry.now (tree_of r.0) r.1.now) }
    ensures refused { IfErr result (λ fault. IsNode graph.now (Union switch arms.now default)
        → RefusesTape fault (BeginsWithNone graph.now (Union switch arms.now default) depth tape.entry.now)) }
{
    let Some(node) = graph.nodes().get(switch as usize) else {
        return Err(ValueFault::NotATape);
    };
    let Some((disc, rest)) = read_number(node, tape) else {
        return Err(ValueFault::NotATape);
    };
    let Some(number) = arms.chosen(default, disc) else {
        return Ok((Value::Choice { disc, member: None }, rest));
    };
    let (value, rest) = read_value(alloc, graph, number, rest, depth)?;
    let member = Box::new(alloc, value)?;
    Ok((
        Value::Choice {
            disc,
            member: Some(member),
        },
        rest,
    ))
}
