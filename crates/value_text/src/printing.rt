//! The texts of values.

ghost use Rattle.std.specs.Prelude.{◌≡◌, [], ◌∷◌, length, slice_get, option_to_list, option_map, replicate, zip, OnOk};
ghost use Rattle.type_graph.specs.Value.{node_at, count, Items, Choice};
ghost use Rattle.idl_value.specs.View.{tree_of, trees_of, member_of};
ghost use Rattle.value_text.specs.Pieces.{listed, octets_of, object_of, paired, joined};
ghost use Rattle.value_text.specs.Texts.{text_at, text_of, texts_of, refers as node_refers, structure_text, members_text, elements_text, number_text};
ghost use Rattle.type_model.specs.PartNamesNames.{names_at};
ghost use Rattle.value_text.specs.inner.Writing.{Adds, member_at, part_at};

use crate::scalars::{write_chars, write_number, write_octets, write_reference, write_text};
use crate::shape::refers;
use idl_value::Value;
use json::Writer;
use std::alloc::{AllocError, Global};
use type_graph::{Graph, Node};
use type_model::part_names::{NodeNames, PartNames};

fn number_at(members: &[u32], place: usize) -> Option<u32>
    ensures { result ≡ slice_get members.now place }
{
    members.get(place).copied()
}

/// Writes the text of a value of a node. A number that is no node's counts as an octet's.
#[cycle(printing)]
pub fn write_value(
    out: &mut Writer,
    alloc: Global,
    graph: &Graph,
    names: &PartNames,
    number: u32,
    value: &Value,
) -> Result<(), AllocError>
    ensures { OnOk result (Adds out.old out.new (text_at names.now graph.now number (tree_of value.now))) }
{
    let labels = names.of(number);
    match graph.nodes().get(number as usize) {
        Some(node) => write_of(out, alloc, graph, names, labels, node, value),
        None => write_of(out, alloc, graph, names, labels, &Node::Octet, value),
    }
}

/// The same, where the node is at hand.
#[cycle(printing)]
fn write_of(
    out: &mut Writer,
    alloc: Global,
    graph: &Graph,
    names: &PartNames,
    labels: &NodeNames,
    node: &Node,
    value: &Value,
) -> Result<(), AllocError>
    ensures { OnOk result (Adds out.old out.new (text_of names.now graph.now labels.now node.now (tree_of value.now))) }
{
    match value {
        Value::Integer(n) => write_number(out, alloc, labels, node, *n),
        Value::Text(text) => write_text(out, alloc, text),
        Value::Items(values) => write_items(out, alloc, graph, names, labels, node, values),
        Value::Choice { disc, member } => {
            write_choice(out, alloc, graph, names, node, *disc, member)
        }
    }
}

/// Writes the text of an array, a sequence, a structure or a frame.
#[cycle(printing)]
fn write_items(
    out: &mut Writer,
    alloc: Global,
    graph: &Graph,
    names: &PartNames,
    labels: &NodeNames,
    node: &Node,
    values: &[Value],
) -> Result<(), AllocError>
    ensures { OnOk result (Adds out.old out.new (text_of names.now graph.now labels.now node.now (Items
        (trees_of values.now)))) }
{
    match node {
        Node::Seq { elem, .. } | Node::Array { elem, .. } => {
            write_elements(out, alloc, graph, names, *elem, values)
        }
        Node::Struct { members } => {
            write_structure(out, alloc, graph, names, labels, members.as_slice(), values)
        }
        Node::Frame { members } => {
            write_members(out, alloc, graph, names, labels, members.as_slice(), values)
        }
        _ => Ok(()),
    }
}

/// An object reference is its string, another structure its members.
#[cycle(printing)]
fn write_structure(
    out: &mut Writer,
    alloc: Global,
    graph: &Graph,
    names: &PartNames,
    labels: &NodeNames,
    members: &[u32],
    values: &[Value],
) -> Result<(), AllocError>
    ensures { OnOk result (Adds out.old out.new (structure_text (node_refers graph.now labels.now members.now)
        (trees_of values.now) (members_text labels.now (length members.now)
        (texts_of names.now graph.now members.now (trees_of values.now))))) }
{
    if refers(graph, labels, members) {
        return write_reference(out, alloc, values);
    }
    write_members(out, alloc, graph, names, labels, members, values)
}

/// Octets and characters are written together, other elements as a list.
#[cycle(printing)]
fn write_elements(
    out: &mut Writer,
    alloc: Global,
    graph: &Graph,
    names: &PartNames,
    elem: u32,
    values: &[Value],
) -> Result<(), AllocError>
    ensures { OnOk result (Adds out.old out.new (elements_text (node_at graph.now elem) (octets_of
        (trees_of values.now))
        (texts_of names.now graph.now (replicate (count (trees_of values.now)) elem) (trees_of values.now)))) }
{
    match graph.nodes().get(elem as usize) {
        None | Some(Node::Octet) => write_octets(out, alloc, values),
        Some(Node::Char) => write_chars(out, alloc, values),
        Some(_) => write_list(out, alloc, graph, names, elem, values),
    }
}

#[cycle(printing)]
fn write_list(
    out: &mut Writer,
    alloc: Global,
    graph: &Graph,
    names: &PartNames,
    elem: u32,
    values: &[Value],
) -> Result<(), AllocError>
    ensures { OnOk result (Adds out.old out.new
        (listed (texts_of names.now graph.now (replicate (count (trees_of values.now)) elem) (trees_of values.now)))) }
{
    out.begin_array()?;
    for value in values {
        write_value(out, alloc, graph, names, elem, value)?;
    }
    out.end_array()
}

/// Members with names are an object, others a list.
#[cycle(printing)]
fn write_members(
    out: &mut Writer,
    alloc: Global,
    graph: &Graph,
    names: &PartNames,
    labels: &NodeNames,
    members: &[u32],
    values: &[Value],
) -> Result<(), AllocError>
    ensures { OnOk result (Adds out.old out.new
        (members_text labels.now (length members.now) (texts_of names.now graph.now members.now (trees_of values.now)))) }
{
    if labels.is_empty() || labels.len() != members.len() {
        return write_row(out, alloc, graph, names, members, values);
    }
    write_object(out, alloc, graph, names, labels, members, values)
}

#[cycle(printing)]
fn write_object(
    out: &mut Writer,
    alloc: Global,
    graph: &Graph,
    names: &PartNames,
    labels: &NodeNames,
    members: &[u32],
    values: &[Value],
) -> Result<(), AllocError>
    ensures { OnOk result (Adds out.old out.new
        (object_of (zip labels.now (texts_of names.now graph.now members.now (trees_of values.now))))) }
{
    out.begin_object()?;
    for place in 0..values.len() {
        let member = number_at(members, place);
        write_member(
            out,
            alloc,
            graph,
            names,
            labels.get(place),
            member,
            &values[place],
        )?;
    }
    out.end_object()
}

/// Writes a member and its name, if both are there.
#[cycle(printing)]
fn write_member(
    out: &mut Writer,
    alloc: Global,
    graph: &Graph,
    names: &PartNames,
    label: Option<&str>,
    member: Option<u32>,
    value: &Value,
) -> Result<(), AllocError>
    ensures { OnOk result (Adds out.old out.new (paired (member_at names.now graph.now (option_map
        (λ label. label.now) label.entry) member (tree_of value.now)))) }
{
    let (Some(label), Some(member)) = (label, member) else {
        return Ok(());
    };
    out.key(label)?;
    write_value(out, alloc, graph, names, member, value)
}

#[cycle(printing)]
fn write_row(
    out: &mut Writer,
    alloc: Global,
    graph: &Graph,
    names: &PartNames,
    members: &[u32],
    values: &[Value],
) -> Result<(), AllocError>
    ensures { OnOk result (Adds out.old out.new (listed (texts_of names.now graph.now members.now
        (trees_of values.now)))) }
{
    out.begin_array()?;
    for place in 0..values.len() {
        let member = number_at(members, place);
        write_part(out, alloc, graph, names, member, &values[place])?;
    }
    out.end_array()
}

/// Writes a part, if it is there.
#[cycle(printing)]
fn write_part(
    out: &mut Writer,
    alloc: Global,
    graph: &Graph,
    names: &PartNames,
    member: Option<u32>,
    value: &Value,
) -> Result<(), AllocError>
    ensures { OnOk result (Adds out.old out.new (joined (part_at names.now graph.now member (tree_of value.now)))) }
{
    match member {
        Some(member) => write_value(out, alloc, graph, names, member, value),
        None => Ok(()),
    }
}

/// A union is the list of its label and its member, if it has one.
#[cycle(printing)]
fn write_choice(
    out: &mut Writer,
    alloc: Global,
    graph: &Graph,
    names: &PartNames,
    node: &Node,
    disc: i128,
    member: &Option<Box<Value>>,
) -> Result<(), AllocError>
    ensures { OnOk result (Adds out.old out.new (text_of names.now graph.now [] node.now (Choice disc
        (member_of member.now)))) }
{
    let Node::Union {
        switch,
        arms,
        default,
    } = node
    else {
        return Ok(());
    };
    out.begin_array()?;
    write_label(out, alloc, graph, names, *switch, disc)?;
    write_chosen(
        out,
        alloc,
        graph,
        names,
        arms.chosen(*default, disc),
        member,
    )?;
    out.end_array()
}

/// Writes the label of a union.
fn write_label(
    out: &mut Writer,
    alloc: Global,
    graph: &Graph,
    names: &PartNames,
    switch: u32,
    disc: i128,
) -> Result<(), AllocError>
    ensures { OnOk result (Adds out.old out.new (number_text (names_at names.now switch)
        (node_at graph.now switch) disc ∷ [])) }
{
    let labels = names.of(switch);
    match graph.nodes().get(switch as usize) {
        Some(node) => write_number(out, alloc, labels, node, disc),
        None => write_number(out, alloc, labels, &Node::Octet, disc),
    }
}

/// Writes the member of a union, if it has one.
#[cycle(printing)]
fn write_chosen(
    out: &mut Writer,
    alloc: Global,
    graph: &Graph,
    names: &PartNames,
    number: Option<u32>,
    member: &Option<Box<Value>>,
) -> Result<(), AllocError>
    ensures { OnOk result (Adds out.old out.new (joined (texts_of names.now graph.now (option_to_list number)
        (member_of member.now)))) }
{
    match member {
        Some(value) => write_part(out, alloc, graph, names, number, value),
        None => Ok(()),
    }
}
