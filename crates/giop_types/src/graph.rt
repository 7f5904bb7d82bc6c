//! The nodes of the types.

ghost use Rattle.std.specs.Prelude.{◌≡◌, [], ◌∷◌, ◌++◌, pos, None, IfOk, OnOk};
ghost use Rattle.std.specs.Bool.{OnFalse};
ghost use Rattle.type_graph.specs.declared.node.Node.TheVariants.{Struct, Union, Frame};
ghost use Rattle.type_graph.specs.GraphRules.{IsGraph};
ghost use Rattle.type_graph.specs.Refusal.{wants_memory};
ghost use Rattle.giop_types.specs.GiopNodes.{body_nodes, giop_nodes, header_nodes, request_nodes};

use std::alloc::{AllocError, Global};
use type_graph::basic_types::{
    BOOLEAN, OBJECT, OCTET, OCTETS, SHORT, STRING, TAGGED, TAGGED_LIST, UNSIGNED_LONG,
    UNSIGNED_SHORT, basic_nodes,
};
use type_graph::{Arms, Graph, GraphFault, Members, Node};

const RESERVED: u32 = 14;

const SELECTED_PROFILE: u32 = 15;

const TARGET_ADDRESS: u32 = 16;
/// The header of a request.
pub const REQUEST_HEADER: u32 = 17;

const REPLY_STATUS: u32 = 18;
/// The header of a reply.
pub const REPLY_HEADER: u32 = 19;
/// The header of a locate request.
pub const LOCATE_REQUEST_HEADER: u32 = 20;
/// The header of a locate reply.
pub const LOCATE_REPLY_HEADER: u32 = 21;
/// The header of a cancel request.
pub const CANCEL_REQUEST_HEADER: u32 = 22;
/// The body of a system exception.
pub const SYSTEM_EXCEPTION: u32 = 23;
/// The body of an IIOP profile of version 1.0, which has no components.
pub const PROFILE_BODY_1_0: u32 = 24;
/// The body of an IIOP profile from version 1.1 on.
pub const PROFILE_BODY_1_1: u32 = 25;
/// A string, as `_is_a` takes it.
pub const ID_ARGUMENT: u32 = 26;
/// A boolean, as `_is_a` and `_non_existent` answer it.
pub const BOOLEAN_RESULT: u32 = 27;
/// Nothing, as `_non_existent` takes it.
pub const NO_ARGUMENT: u32 = 28;

fn members_of(alloc: Global, members: &[u32]) -> Result<Members, AllocError>
    ensures { IfOk result (λ made. made ≡ members.now) }
{
    let mut numbers = Vec::new(alloc);
    numbers.extend_from_slice(members)?;
    Ok(Members::new(numbers))
}

fn add(nodes: &mut Vec<Node>, node: Node) -> Result<(), AllocError>
    ensures { OnOk result (nodes.new.items ≡ nodes.old.items ++ node ∷ []) }
{
    match nodes.push(node) {
        Ok(()) => Ok(()),
        Err(_) => Err(AllocError),
    }
}

fn add_struct(alloc: Global, nodes: &mut Vec<Node>, members: &[u32]) -> Result<(), AllocError>
    ensures { OnOk result (nodes.new.items ≡ nodes.old.items ++ Struct members.now ∷ []) }
{
    let members = members_of(alloc, members)?;
    add(nodes, Node::Struct { members })
}

fn add_frame(alloc: Global, nodes: &mut Vec<Node>, members: &[u32]) -> Result<(), AllocError>
    ensures { OnOk result (nodes.new.items ≡ nodes.old.items ++ Frame members.now ∷ []) }
{
    let members = members_of(alloc, members)?;
    add(nodes, Node::Frame { members })
}

/// The union of the three ways to tell a request's target.
fn target_address(alloc: Global) -> Result<Node, AllocError>
    ensures { IfOk result (λ node. node ≡ Union 3 ((pos 0, 10) ∷ (pos 1, 11) ∷ (pos 2, 15) ∷ []) None) }
{
    let arms = vec![in alloc; (0, OCTETS), (1, TAGGED), (2, SELECTED_PROFILE)]?;
    Ok(Node::Union {
        switch: SHORT,
        arms: Arms::new(arms),
        default: None,
    })
}

/// The types up to the header of a request.
fn add_request(alloc: Global, nodes: &mut Vec<Node>) -> Result<(), AllocError>
    ensures { OnOk result (nodes.new.items ≡ nodes.old.items ++ request_nodes) }
{
    let reserved = Node::Array { elem: OCTET, n: 3 };
    add(nodes, reserved)?;
    add_struct(alloc, nodes, &[UNSIGNED_LONG, OBJECT])?;
    let target = target_address(alloc)?;
    add(nodes, target)?;
    let request = [
        UNSIGNED_LONG,
        OCTET,
        RESERVED,
        TARGET_ADDRESS,
        STRING,
        TAGGED_LIST,
    ];
    add_struct(alloc, nodes, &request)
}

/// The headers of the other messages.
fn add_headers(alloc: Global, nodes: &mut Vec<Node>) -> Result<(), AllocError>
    ensures { OnOk result (nodes.new.items ≡ nodes.old.items ++ header_nodes) }
{
    add(nodes, Node::Enum { n: 6 })?;
    add_struct(alloc, nodes, &[UNSIGNED_LONG, REPLY_STATUS, TAGGED_LIST])?;
    add_struct(alloc, nodes, &[UNSIGNED_LONG, TARGET_ADDRESS])?;
    add_struct(alloc, nodes, &[UNSIGNED_LONG, UNSIGNED_LONG])?;
    add_struct(alloc, nodes, &[UNSIGNED_LONG])
}

/// The bodies of profiles, and of the replies and requests that every object has.
fn add_bodies(alloc: Global, nodes: &mut Vec<Node>) -> Result<(), AllocError>
    ensures { OnOk result (nodes.new.items ≡ nodes.old.items ++ body_nodes) }
{
    add_frame(alloc, nodes, &[STRING, UNSIGNED_LONG, UNSIGNED_LONG])?;
    add_struct(
        alloc,
        nodes,
        &[OCTET, OCTET, STRING, UNSIGNED_SHORT, OCTETS],
    )?;
    let with_components = [OCTET, OCTET, STRING, UNSIGNED_SHORT, OCTETS, TAGGED_LIST];
    add_struct(alloc, nodes, &with_components)?;
    add_frame(alloc, nodes, &[STRING])?;
    add_frame(alloc, nodes, &[BOOLEAN])?;
    add_frame(alloc, nodes, &[])
}

fn nodes(alloc: Global) -> Result<Vec<Node>, AllocError>
    ensures { IfOk result (λ nodes. nodes.items ≡ giop_nodes) }
{
    let mut nodes = basic_nodes(alloc)?;
    add_request(alloc, &mut nodes)?;
    add_headers(alloc, &mut nodes)?;
    add_bodies(alloc, &mut nodes)?;
    Ok(nodes)
}

/// The rules hold, so that only memory can have been the cause.
#[tactic(auto, using(crate::proofs::GraphFacts::giop_is_graph))]
fn memory_of(fault: GraphFault) -> AllocError
    requires { OnFalse (wants_memory fault) (IsGraph giop_nodes → ⊥) }
{
    match fault {
        GraphFault::NoMemory => AllocError,
        _ => unreachable!(),
    }
}

/// The graph of the types of GIOP.
pub(crate) fn graph(alloc: Global) -> Result<Graph, AllocError>
    ensures { IfOk result (λ graph. graph ≡ giop_nodes) }
{
    let nodes = nodes(alloc)?;
    match Graph::from_nodes(alloc, nodes) {
        Ok(graph) => Ok(graph),
        Err(fault) => Err(memory_of(fault)),
    }
}
