//! The tests of the rules that make a list of nodes a graph.

ghost use Rattle.std.specs.Prelude.{◌≡◌, ◌<◌, ◌≤◌, ◌↔◌, ℕ, All, length, slice_get, slice_index_or, IfSome, IfNone, IfOk, IfErr, OnOk, OnErr, IsTrue, EachIndex, true, false};
ghost use Rattle.type_graph.specs.GraphRules.{IsNode, IsPart, AreMembers, IsGraph, IsShallow, IsWide, all_members, members_in, held_by};
ghost use Rattle.type_graph.specs.inner.Levels.{IsLevelAbove, IsLevel};
ghost use Rattle.type_graph.specs.Refusal.{DeniesIfBad, IsPlaceIn, IsFault, IsWellFormed};

use crate::cycles::find_cycle;
use crate::fault::{GraphLimit, NodeRule, RuleFault};
use crate::node::Node;
use crate::unions::check_union;
use crate::width::Width;
use std::alloc::{AllocError, Global};
use std::mem;

const MAX_NODES: usize = 4096;

pub const MAX_MEMBERS: usize = 1024;

const MAX_ENUMERATORS: u32 = 65536;

const MAX_SIZE: u32 = 1_048_576;

const MAX_ALL_MEMBERS: usize = 32768;

pub const MAX_PATH: usize = 64;

fn check_width(width: Width) -> Result<(), NodeRule>
    ensures ok { OnOk result (IsWide width) }
    ensures err { OnErr result (IsWide width → ⊥) }
    ensures bad { IfErr result (λ rule. DeniesIfBad rule (IsWide width)) }
{
    match width {
        Width::One => Err(NodeRule::BadNode),
        _ => Ok(()),
    }
}

/// Whether a node may refer to the number.
pub fn is_part(nodes: &[Node], number: u32) -> bool
    ensures { IsTrue result ↔ IsPart nodes.now number }
{
    match nodes.get(number as usize) {
        None | Some(Node::Frame { .. }) => false,
        Some(_) => true,
    }
}

fn are_parts(nodes: &[Node], members: &[u32]) -> bool
    ensures { IsTrue result ↔ All (IsPart nodes.now) members.now }
{
    members.iter().all(|number| is_part(nodes, *number))
}

fn check_part(nodes: &[Node], number: u32) -> Result<(), NodeRule>
    ensures ok { OnOk result (IsPart nodes.now number) }
    ensures err { OnErr result (IsPart nodes.now number → ⊥) }
    ensures bad { IfErr result (λ rule. DeniesIfBad rule (IsPart nodes.now number)) }
{
    if !is_part(nodes, number) {
        return Err(NodeRule::BadNode);
    }
    Ok(())
}

fn check_members(nodes: &[Node], members: &[u32]) -> Result<(), NodeRule>
    ensures ok { OnOk result (AreMembers nodes.now members.now) }
    ensures err { OnErr result (AreMembers nodes.now members.now → ⊥) }
    ensures bad { IfErr result (λ rule. DeniesIfBad rule (All (IsPart nodes.now) members.now)) }
{
    if members.len() > MAX_MEMBERS {
        return Err(NodeRule::Limit {
            which: GraphLimit::Members,
        });
    }
    if !are_parts(nodes, members) {
        return Err(NodeRule::BadNode);
    }
    Ok(())
}

fn check_struct(nodes: &[Node], members: &[u32]) -> Result<(), NodeRule>
    ensures ok { OnOk result ((0 < length members.now) × AreMembers nodes.now members.now) }
    ensures err { OnErr result ((0 < length members.now) × AreMembers nodes.now members.now → ⊥) }
    ensures bad { IfErr result
        (λ rule. DeniesIfBad rule ((0 < length members.now) × All (IsPart nodes.now) members.now)) }
{
    if members.is_empty() {
        return Err(NodeRule::BadNode);
    }
    check_members(nodes, members)
}

fn check_enum(n: u32) -> Result<(), NodeRule>
    ensures ok { OnOk result ((0 < n) × (n ≤ 65536)) }
    ensures err { OnErr result ((0 < n) × (n ≤ 65536) → ⊥) }
    ensures bad { IfErr result (λ rule. DeniesIfBad rule (0 < n)) }
{
    if n == 0 {
        return Err(NodeRule::BadNode);
    }
    if n > MAX_ENUMERATORS {
        return Err(NodeRule::Limit {
            which: GraphLimit::Enumerators,
        });
    }
    Ok(())
}

fn check_array(nodes: &[Node], elem: u32, n: u32) -> Result<(), NodeRule>
    ensures ok { OnOk result (IsPart nodes.now elem × (0 < n) × (n ≤ 1048576)) }
    ensures err { OnErr result (IsPart nodes.now elem × (0 < n) × (n ≤ 1048576) → ⊥) }
    ensures bad { IfErr result (λ rule. DeniesIfBad rule (IsPart nodes.now elem × (0 < n))) }
{
    if n == 0 {
        return Err(NodeRule::BadNode);
    }
    if n > MAX_SIZE {
        return Err(NodeRule::Limit {
            which: GraphLimit::Size,
        });
    }
    check_part(nodes, elem)
}

fn check_seq(nodes: &[Node], elem: u32, bound: u32) -> Result<(), NodeRule>
    ensures ok { OnOk result (IsPart nodes.now elem × (bound ≤ 4294967295)) }
    ensures err { OnErr result (IsPart nodes.now elem × (bound ≤ 4294967295) → ⊥) }
    ensures bad { IfErr result (λ rule. DeniesIfBad rule (IsPart nodes.now elem)) }
{
    check_part(nodes, elem)
}

fn check_node(nodes: &[Node], node: &Node) -> Result<(), NodeRule>
    ensures ok { OnOk result (IsNode nodes.now node.now) }
    ensures err { OnErr result (IsNode nodes.now node.now → ⊥) }
    ensures bad { IfErr result (λ rule. DeniesIfBad rule (IsWellFormed nodes.now node.now)) }
    ensures place { IfErr result (IsPlaceIn nodes.now node.now) }
{
    match node {
        Node::Integer { width, .. } => check_width(*width),
        Node::Octet | Node::Char | Node::Boolean => Ok(()),
        Node::Text { bound } => {
            let _bound = *bound;
            Ok(())
        }
        Node::Enum { n } => check_enum(*n),
        Node::Seq { elem, bound } => check_seq(nodes, *elem, *bound),
        Node::Array { elem, n } => check_array(nodes, *elem, *n),
        Node::Struct { members } => check_struct(nodes, members.as_slice()),
        Node::Union {
            switch,
            arms,
            default,
        } => check_union(nodes, *switch, arms.as_slice(), *default),
        Node::Frame { members } => check_members(nodes, members.as_slice()),
    }
}

/// The first node that breaks a rule of nodes.
fn find_in_nodes(nodes: &[Node]) -> Option<RuleFault>
    ensures none { IfNone result (All (IsNode nodes.now) nodes.now) }
    ensures some { IfSome result (IsFault nodes.now) }
{
    for (number, node) in nodes.iter().enumerate() {
        if let Err(rule) = check_node(nodes, node) {
            return Some(RuleFault::InNode { node: number, rule });
        }
    }
    None
}

fn member_count(node: &Node) -> usize
    ensures { result ≡ members_in node.now }
{
    match node {
        Node::Struct { members } | Node::Frame { members } => members.as_slice().len(),
        Node::Union { arms, .. } => arms.as_slice().len(),
        _ => 0,
    }
}

/// The node with which the members of all types are too many.
fn find_too_many_members(nodes: &[Node]) -> Option<RuleFault>
    ensures none { IfNone result (all_members nodes.now ≤ 32768) }
    ensures some { IfSome result (IsFault nodes.now) }
{
    let mut left = MAX_ALL_MEMBERS;
    for (number, node) in nodes.iter().enumerate() {
        let count = member_count(node);
        if count > left {
            return Some(RuleFault::TooManyMembers { node: number });
        }
        left -= count;
    }
    None
}

/// Whether the number is in the table of those that are shallow enough.
fn is_in(table: &[bool], number: u32) -> bool
    ensures { result ≡ slice_index_or table.now number false }
{
    table.get(number as usize).copied().unwrap_or(false)
}

fn is_none_or_in(table: &[bool], part: Option<u32>) -> bool
    ensures { IsTrue result ↔ IfSome part (λ number. slice_index_or table.now number false ≡ true) }
{
    match part {
        None => true,
        Some(number) => is_in(table, number),
    }
}

/// Whether each node that a value of this one holds is in the table.
fn is_above(table: &[bool], node: &Node) -> bool
    ensures { IsTrue result ↔ All (λ number. slice_index_or table.now number false ≡ true) (held_by node.now) }
{
    for place in 0..node.held_count() {
        if !is_none_or_in(table, node.held_at(place)) {
            return false;
        }
    }
    true
}

/// One level more: the nodes of which each part is in the table.
fn level_above(nodes: &[Node], table: &[bool], next: &mut Vec<bool>) -> Result<(), AllocError>
    ensures { OnOk result (IsLevelAbove nodes.now table.now next.new.items) }
{
    next.clear();
    for node in nodes {
        next.push(is_above(table, node))?;
    }
    Ok(())
}

/// The nodes from which every path downwards that passes no sequence has at most so many nodes. A
/// level that changes nothing is the last.
fn shallow(alloc: Global, nodes: &[Node], levels: usize) -> Result<Vec<bool>, AllocError>
    requires { All (IsNode nodes.now) nodes.now }
    ensures { IfOk result (λ table. IsLevel levels nodes.now table.items) }
{
    let mut table = vec![in alloc; false; nodes.len()]?;
    let mut next = Vec::new(alloc);
    for _ in 0..levels {
        level_above(nodes, &table, &mut next)?;
        if next == table {
            return Ok(table);
        }
        mem::swap(&mut table, &mut next);
    }
    Ok(table)
}

/// Whether a number is that of a node that isn't in the table.
fn is_missing(table: &[bool], number: usize) -> bool
    ensures { IsTrue result → (number < length table.now) × (slice_index_or table.now number false ≡ false) }
{
    number < table.len() && !table[number]
}

fn first_missing(table: &[bool]) -> Option<usize>
    ensures none { IfNone result (EachIndex table.now (λ number. slice_index_or table.now number false ≡ true)) }
    ensures some { IfSome result (λ number. (number < length table.now)
        × (slice_index_or table.now number false ≡ false)) }
{
    for number in 0..table.len() {
        if !table[number] {
            return Some(number);
        }
    }
    None
}

/// A path downwards that has more than 64 nodes, or one that goes round.
fn find_in_paths(alloc: Global, nodes: &[Node]) -> Result<Option<RuleFault>, AllocError>
    requires { All (IsNode nodes.now) nodes.now }
    ensures none { IfOk result (λ found. IfNone found (EachIndex nodes.now (IsShallow 64 nodes.now))) }
    ensures some { IfOk result (λ found. IfSome found (IsFault nodes.now)) }
{
    let table = shallow(alloc, nodes, MAX_PATH)?;
    let Some(node) = first_missing(&table) else {
        return Ok(None);
    };
    match find_cycle(alloc, nodes)? {
        Some(held) if is_missing(&table, held.node) => Ok(Some(RuleFault::SelfHeld {
            node: held.node,
            place: held.place,
        })),
        _ => Ok(Some(RuleFault::LongPath { node })),
    }
}

/// The first rule of a graph that a list of nodes breaks, if it breaks one: rules of the list
/// first, then those of the nodes in order, then those on paths, where a type that holds itself
/// comes before too long a path.
///
/// # Errors
/// Want of memory.
pub fn find_fault(alloc: Global, nodes: &[Node]) -> Result<Option<RuleFault>, AllocError>
    ensures none { IfOk result (λ found. IfNone found (IsGraph nodes.now)) }
    ensures some { IfOk result (λ found. IfSome found (IsFault nodes.now)) }
{
    if nodes.len() > MAX_NODES {
        return Ok(Some(RuleFault::TooManyNodes));
    }
    if let Some(fault) = find_in_nodes(nodes) {
        return Ok(Some(fault));
    }
    if let Some(fault) = find_too_many_members(nodes) {
        return Ok(Some(fault));
    }
    find_in_paths(alloc, nodes)
}
