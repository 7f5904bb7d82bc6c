//! The attributes of an object, and what its operations do.

ghost use Rattle.std.specs.Prelude.{◌≡◌, ◌<◌, ℕ, List, length, option_and_then, option_map, slice_get, IfOk};
ghost use Rattle.type_graph.specs.Value.{node_at};
ghost use Rattle.broker_answers.specs.Attributes.{HasFrames, attribute_named, action_at, action_where, first_tape, first_tapes, frame_action, getters_of, got_by, is_getter, members_of, operations_at, set_by, with_actions};
ghost use Rattle.broker_answers.specs.inner.Places.{place_in};

use crate::attribute_keeper::action::Action;
use indexmap::IndexMap;
use std::alloc::{AllocError, Global};
use type_graph::{Graph, Items, Node};
use type_model::{Model, Operation};

/// The name of the attribute that an operation gets.
fn got_name(operation: &Operation) -> Option<&[u8]>
    ensures { option_map (λ name. name.now) result ≡ got_by operation.now }
{
    let name = operation.name.as_str().as_bytes();
    name.strip_prefix(b"_get_".as_slice())
}

/// The name of the attribute that an operation sets.
fn set_name(operation: &Operation) -> Option<&[u8]>
    ensures { option_map (λ name. name.now) result ≡ set_by operation.now }
{
    let name = operation.name.as_str().as_bytes();
    name.strip_prefix(b"_set_".as_slice())
}

/// The numbers of the operations of an interface. A place past the last interface has none.
pub(crate) fn operations_of(model: &Model, interface: u32) -> &[u32]
    ensures { result.now ≡ operations_at model.now interface }
{
    match model.interfaces().get(interface as usize) {
        Some(interface) => interface.operations.as_slice(),
        None => &[],
    }
}

/// Whether the operation of a number gets an attribute.
fn is_get(model: &Model, number: u32) -> bool
    ensures { result ≡ is_getter model.now number }
{
    match model.operations().get(number as usize) {
        Some(operation) => got_name(operation).is_some(),
        None => false,
    }
}

/// Those of the operations that get an attribute.
pub(crate) fn find_getters(
    alloc: Global,
    model: &Model,
    numbers: &[u32],
) -> Result<Vec<u32>, AllocError>
    ensures { IfOk result (λ getters. getters.items ≡ getters_of model.now numbers.now) }
{
    let mut getters = Vec::new(alloc);
    for number in numbers {
        if is_get(model, *number) {
            getters.push(*number)?;
        }
    }
    Ok(getters)
}

/// The name of the attribute that the operation of a number gets.
fn gotten(model: &Model, number: u32) -> Option<&[u8]>
    ensures { option_map (λ name. name.now) result ≡ option_and_then got_by (slice_get model.now.operations number) }
{
    got_name(model.operations().get(number as usize)?)
}

/// Where attributes are, by their names.
type Places<'m> = IndexMap<&'m [u8], usize>;

/// Where the attributes are that these operations get: of two of one name the first.
fn find_places<'m>(
    alloc: Global,
    model: &'m Model,
    getters: &[u32],
) -> Result<Places<'m>, AllocError>
    ensures { IfOk result (λ places. (name : List ℕ)
        → place_in places.entries name ≡ attribute_named model.now getters.now name) }
{
    let mut places = IndexMap::new(alloc);
    for place in (0..getters.len()).rev() {
        if let Some(name) = gotten(model, getters[place]) {
            places.insert(name, place)?;
        }
    }
    Ok(places)
}

/// The place of the attribute of a name, if there is a name.
fn place_of(places: &Places<'_>, name: Option<&[u8]>) -> Option<usize>
    ensures { result ≡ option_and_then (place_in places.now.entries) (option_map (λ n. n.now) name.entry) }
{
    places.get(name?).copied()
}

fn frame_members(graph: &Graph, frame: u32) -> &[u32]
    requires { frame < length graph.now }
    ensures { result.now ≡ members_of (node_at graph.now frame) }
{
    match graph.node(frame) {
        Node::Frame { members } => members.as_slice(),
        _ => &[],
    }
}

/// What an operation does that neither gets nor sets an attribute.
fn other_deed(graph: &Graph, operation: &Operation) -> Action
    requires { HasFrames graph.now operation.now }
    ensures { result ≡ frame_action graph.now operation.now }
{
    let request = frame_members(graph, operation.request);
    let reply = frame_members(graph, operation.reply);
    if reply.is_empty() {
        Action::Empty
    } else if request == reply {
        Action::Echo
    } else {
        Action::Nothing
    }
}

/// What an operation of an object does whose attributes are there.
fn operation_deed(graph: &Graph, places: &Places<'_>, operation: &Operation) -> Action
    requires { HasFrames graph.now operation.now }
    ensures { result ≡ action_where (place_in places.now.entries) graph.now operation.now }
{
    if let Some(attribute) = place_of(places, got_name(operation)) {
        return Action::Get(attribute);
    }
    match place_of(places, set_name(operation)) {
        Some(attribute) => Action::Set(attribute),
        None => other_deed(graph, operation),
    }
}

fn number_deed(model: &Model, places: &Places<'_>, number: u32) -> Action
    ensures { result ≡ action_at (place_in places.now.entries) model.now number }
{
    match model.operations().get(number as usize) {
        Some(operation) => operation_deed(model.graph(), places, operation),
        None => Action::Nothing,
    }
}

/// The operations of an object that has these attributes, each with what it does.
pub(crate) fn find_actions(
    alloc: Global,
    model: &Model,
    getters: &[u32],
    numbers: &[u32],
) -> Result<Items<(u32, Action)>, AllocError>
    ensures { IfOk result (λ actions. actions ≡ with_actions model.now getters.now numbers.now) }
{
    let places = find_places(alloc, model, getters)?;
    let mut actions = Vec::new(alloc);
    for number in numbers {
        actions.push((*number, number_deed(model, &places, *number)))?;
    }
    Ok(Items::new(actions))
}

/// The tape of zeros of what an operation replies.
fn zero_reply(alloc: Global, model: &Model, number: u32) -> Result<Vec<u8>, AllocError>
    ensures { IfOk result (λ tape. tape.items ≡ first_tape model.now number) }
{
    match model.operations().get(number as usize) {
        Some(operation) => model.graph().zero(alloc, operation.reply),
        None => Ok(Vec::new(alloc)),
    }
}

/// The tape that each attribute has at first.
pub(crate) fn zero_replies(
    alloc: Global,
    model: &Model,
    getters: &[u32],
) -> Result<Vec<Items<u8>>, AllocError>
    ensures { IfOk result (λ tapes. tapes.items ≡ first_tapes model.now getters.now) }
{
    let mut tapes = Vec::new(alloc);
    for getter in getters {
        tapes.push(Items::new(zero_reply(alloc, model, *getter)?))?;
    }
    Ok(tapes)
}
