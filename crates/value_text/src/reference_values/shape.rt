//! Which types are object references.

ghost use Rattle.std.specs.Prelude.{◌≡◌};
ghost use Rattle.type_graph.specs.Value.{node_at};
ghost use Rattle.value_text.specs.Shape.{is_string as string_node, is_octet as octet_node, is_long as long_node, are_octets as octets_node, is_profile as profile_members, is_profile_node, are_profiles as profiles_node, is_reference as reference_members};

use type_graph::{Graph, Node, Width};

fn is_string(graph: &Graph, number: u32) -> bool
    ensures { result ≡ string_node (node_at graph.now number) }
{
    match graph.nodes().get(number as usize) {
        Some(Node::Text { bound }) => *bound == 0,
        _ => false,
    }
}

fn is_octet(graph: &Graph, number: u32) -> bool
    ensures { result ≡ octet_node (node_at graph.now number) }
{
    match graph.nodes().get(number as usize) {
        None | Some(Node::Octet) => true,
        Some(_) => false,
    }
}

fn is_long(graph: &Graph, number: u32) -> bool
    ensures { result ≡ long_node (node_at graph.now number) }
{
    match graph.nodes().get(number as usize) {
        Some(
            Node::Integer {
                width: Width::Four,
                signed,
            },
        ) => !*signed,
        _ => false,
    }
}

fn are_octets(graph: &Graph, number: u32) -> bool
    ensures { result ≡ octets_node graph.now (node_at graph.now number) }
{
    match graph.nodes().get(number as usize) {
        Some(Node::Seq { elem, bound }) => *bound == 0 && is_octet(graph, *elem),
        _ => false,
    }
}

/// The members of a profile's node.
fn is_profile(graph: &Graph, members: &[u32]) -> bool
    ensures { result ≡ profile_members graph.now members.now }
{
    match members {
        [tag, octets] => is_long(graph, *tag) && are_octets(graph, *octets),
        _ => false,
    }
}

fn is_profile_at(graph: &Graph, number: u32) -> bool
    ensures { result ≡ is_profile_node graph.now (node_at graph.now number) }
{
    match graph.nodes().get(number as usize) {
        Some(Node::Struct { members }) => is_profile(graph, members.as_slice()),
        _ => false,
    }
}

fn are_profiles(graph: &Graph, number: u32) -> bool
    ensures { result ≡ profiles_node graph.now (node_at graph.now number) }
{
    match graph.nodes().get(number as usize) {
        Some(Node::Seq { elem, bound }) => *bound == 0 && is_profile_at(graph, *elem),
        _ => false,
    }
}

/// Whether a structure with these members is an object reference: a string, and profiles, each a tag
/// with octets.
pub fn is_reference(graph: &Graph, members: &[u32]) -> bool
    ensures { result ≡ reference_members graph.now members.now }
{
    match members {
        [id, profiles] => is_string(graph, *id) && are_profiles(graph, *profiles),
        _ => false,
    }
}
