//! What is read off each node of a list: its lead, of which words its values are made, and how long
//! the tape of its zeros is.

ghost use Rattle.std.specs.Prelude.{◌≡◌, ◌≤◌, ◌+◌, ◌*◌, ℕ, List, [], ◌∷◌, ◌++◌, length, option_to_list, replicate, slice_index_or, sum_by, IfOk, OnOk, IsTrue, ◌↔◌};
ghost use Rattle.std.specs.List.{AllByRecursion, flat_map};
ghost use Rattle.type_graph.specs.declared.node.Node.{Node};
ghost use Rattle.type_graph.specs.Value.{node_at, number_width};
ghost use Rattle.type_graph.specs.Words.{octets_in};
ghost use Rattle.type_graph.specs.Walks.{first_lead, lead_by, lead_of};
ghost use Rattle.type_graph.specs.Leaves.{IsWordOf, AreWords};
ghost use Rattle.type_graph.specs.inner.Shapes.{lead_as, octet_shape, IsRun, IsSize, IsShape, AreShapes, AreShapesWithin, AreShapesBy, IsShapeBy};

use crate::node::Node;
use crate::rules::MAX_PATH;
use crate::width::Width;
use std::alloc::{AllocError, Global};
use std::mem;

/// The lead of a node: known, or that of another node.
enum Leading {
    By(Width),
    As(u32),
}

fn width_at(nodes: &[Node], number: u32) -> Width
    ensures { result ≡ number_width (node_at nodes.now number) }
{
    match nodes.get(number as usize) {
        Some(node) => node.number_width(),
        None => Width::One,
    }
}

fn lead_step_of_members(members: &[u32]) -> Leading
    ensures { (lead : ℕ → Width) → lead_as lead result ≡ first_lead lead members.now }
{
    match members {
        [] => Leading::By(Width::One),
        [first, ..] => Leading::As(*first),
    }
}

fn lead_step(nodes: &[Node], node: &Node) -> Leading
    ensures { (lead : ℕ → Width) → lead_as lead result ≡ lead_by lead nodes.now node.now }
{
    match node {
        Node::Text { .. } | Node::Seq { .. } => Leading::By(Width::Four),
        Node::Array { elem, .. } => Leading::As(*elem),
        Node::Struct { members } | Node::Frame { members } => lead_step_of_members(
            members.as_slice(),
        ),
        Node::Union { switch, .. } => Leading::By(width_at(nodes, *switch)),
        _ => Leading::By(node.number_width()),
    }
}

fn lead_step_at(nodes: &[Node], number: u32) -> Leading
    ensures { (lead : ℕ → Width) → lead_as lead result ≡ lead_by lead nodes.now (node_at nodes.now number) }
{
    match nodes.get(number as usize) {
        Some(node) => lead_step(nodes, node),
        None => Leading::By(Width::One),
    }
}

pub fn lead_from(nodes: &[Node], number: u32) -> Width
    ensures { result ≡ lead_of nodes.now number }
{
    let mut at = number;
    for _ in 0..MAX_PATH {
        match lead_step_at(nodes, at) {
            Leading::By(width) => return width,
            Leading::As(next) => at = next,
        }
    }
    Width::One
}

/// Of which words nodes are made, one behind the other.
#[derive(Clone, Copy, Debug, PartialEq, Eq)]
pub enum Run {
    /// No word.
    Empty,
    /// So many words of one width.
    Words(Width, u32),
    /// Something else, or too many words.
    Mixed,
}

/// As many words as an array may have elements.
const MAX_WORDS: u64 = 1_048_576;

fn counted(width: Width, n: u64) -> Run
    ensures { (leaves : List Node) → AllByRecursion (IsWordOf width) leaves → length leaves ≡ n → 1 ≤ n
        → IsRun leaves result }
{
    if n > MAX_WORDS {
        return Run::Mixed;
    }
    Run::Words(width, n as u32)
}

fn joined_words(width: Width, n: u32, second: Run) -> Run
    ensures { (leaves more : List Node) → AreWords width n leaves → IsRun more second → IsRun (leaves ++ more) result }
{
    match second {
        Run::Empty => Run::Words(width, n),
        Run::Words(other, _) if other != width => Run::Mixed,
        Run::Words(_, m) => counted(width, u64::from(n) + u64::from(m)),
        Run::Mixed => Run::Mixed,
    }
}

fn joined_run(first: Run, second: Run) -> Run
    ensures { (leaves more : List Node) → IsRun leaves first → IsRun more second → IsRun (leaves ++ more) result }
{
    match first {
        Run::Empty => second,
        Run::Words(width, n) => joined_words(width, n, second),
        Run::Mixed => Run::Mixed,
    }
}

fn repeated_run(count: u32, run: Run) -> Run
    requires { 1 ≤ count }
    ensures { (leaves : ℕ → List Node) (number : ℕ) → IsRun (leaves number) run
        → IsRun (flat_map leaves (replicate count number)) result }
{
    match run {
        Run::Empty => Run::Empty,
        Run::Words(width, n) => counted(width, u64::from(count) * u64::from(n)),
        Run::Mixed => Run::Mixed,
    }
}

fn joined_size(first: Option<usize>, second: Option<usize>) -> Option<usize>
    ensures { (n m : ℕ) → IsSize n first → IsSize m second → IsSize (n + m) result }
{
    first?.checked_add(second?)
}

fn repeated_size(count: u32, size: Option<usize>) -> Option<usize>
    requires { 1 ≤ count }
    ensures { (n : ℕ) → IsSize n size → IsSize (count * n) result }
{
    (count as usize).checked_mul(size?)
}

/// What is computed of a node, or of nodes one behind the other.
#[derive(Clone, Copy, Debug, PartialEq, Eq)]
pub struct Shape {
    pub run: Run,
    /// The size of the tape of zeros, unless it passes 64 bits.
    pub size: Option<usize>,
}

/// The shape of no nodes.
fn shape_of_none() -> Shape
    ensures { IsShape [] 0 result }
{
    Shape {
        run: Run::Empty,
        size: Some(0),
    }
}

fn joined(first: Shape, second: Shape) -> Shape
    ensures { (leaves more : List Node) (n m : ℕ) → IsShape leaves n first → IsShape more m second
        → IsShape (leaves ++ more) (n + m) result }
{
    Shape {
        run: joined_run(first.run, second.run),
        size: joined_size(first.size, second.size),
    }
}

fn repeated(count: u32, shape: Shape) -> Shape
    ensures { (leaves : ℕ → List Node) (size : ℕ → ℕ) (number : ℕ) → IsShape (leaves number) (size number) shape
        → IsShape (flat_map leaves (replicate count number)) (sum_by size (replicate count number)) result }
{
    if count == 0 {
        return shape_of_none();
    }
    Shape {
        run: repeated_run(count, shape.run),
        size: repeated_size(count, shape.size),
    }
}

/// The shape of a node that is no array, structure or frame.
fn leaf(node: &Node, size: Option<usize>) -> Shape
    ensures run { IsRun (node.now ∷ []) result.run }
    ensures size { result.size ≡ size }
{
    let run = match node {
        Node::Integer { width, .. } => Run::Words(*width, 1),
        Node::Octet | Node::Char => Run::Words(Width::One, 1),
        _ => Run::Mixed,
    };
    Shape { run, size }
}

/// The shape at a number: past the end of the table that of an octet.
pub fn shape_at(table: &[Shape], number: u32) -> Shape
    ensures { result ≡ slice_index_or table.now number octet_shape }
{
    table.get(number as usize).copied().unwrap_or(Shape {
        run: Run::Words(Width::One, 1),
        size: Some(1),
    })
}

fn shape_of_members(table: &[Shape], members: &[u32]) -> Shape
    ensures { (leaves : ℕ → List Node) (size : ℕ → ℕ) → AreShapes table.now leaves size
        → IsShape (flat_map leaves members.now) (sum_by size members.now) result }
{
    let mut shape = shape_of_none();
    for number in members {
        shape = joined(shape, shape_at(table, *number));
    }
    shape
}

/// The size of a union's tape of zeros: of its discriminator, and of what that chooses.
fn size_of_union(switch: Width, table: &[Shape], arm: Option<u32>) -> Option<usize>
    ensures { (leaves : ℕ → List Node) (size : ℕ → ℕ) → AreShapes table.now leaves size
        → IsSize (octets_in switch + sum_by size (option_to_list arm)) result }
{
    let first = Some(switch.octets());
    match arm {
        None => first,
        Some(number) => joined_size(first, shape_at(table, number).size),
    }
}

fn shape_of(nodes: &[Node], table: &[Shape], node: &Node) -> Shape
    ensures { IsShapeBy nodes.now table.now node.now result }
{
    match node {
        Node::Text { .. } | Node::Seq { .. } => leaf(node, Some(4)),
        Node::Array { elem, n } => repeated(*n, shape_at(table, *elem)),
        Node::Struct { members } | Node::Frame { members } => {
            shape_of_members(table, members.as_slice())
        }
        Node::Union {
            switch,
            arms,
            default,
        } => {
            let arm = arms.chosen(*default, 0);
            leaf(node, size_of_union(width_at(nodes, *switch), table, arm))
        }
        _ => leaf(node, Some(node.number_width().octets())),
    }
}

/// The shapes of all nodes, where the table has those of their parts.
fn shapes_above(nodes: &[Node], table: &[Shape], next: &mut Vec<Shape>) -> Result<(), AllocError>
    ensures { OnOk result (AreShapesBy nodes.now table.now next.new.items) }
{
    next.clear();
    for node in nodes {
        next.push(shape_of(nodes, table, node))?;
    }
    Ok(())
}

fn is_same(shape: Shape, other: Shape) -> bool
    ensures { IsTrue result ↔ (shape ≡ other) }
{
    shape == other
}

fn are_same(shapes: &[Shape], others: &[Shape]) -> bool
    ensures { IsTrue result → (shapes.now ≡ others.now) }
{
    if shapes.len() != others.len() {
        return false;
    }
    for (place, shape) in shapes.iter().enumerate() {
        if !is_same(*shape, others[place]) {
            return false;
        }
    }
    true
}

/// The shapes of all nodes, found level by level: so a node that many share is looked at once a
/// level. A level that changes nothing is the last.
pub fn shapes_of(alloc: Global, nodes: &[Node]) -> Result<Vec<Shape>, AllocError>
    ensures { IfOk result (λ table. AreShapesWithin 64 nodes.now table.items) }
{
    let mut table = Vec::new(alloc);
    let mut next = Vec::new(alloc);
    for _ in 0..MAX_PATH {
        shapes_above(nodes, &table, &mut next)?;
        if are_same(&next, &table) {
            return Ok(table);
        }
        mem::swap(&mut table, &mut next);
    }
    Ok(table)
}

/// So many zeros. The largest size stands for one that passes 64 bits: no growth gives as many.
pub fn zeros(alloc: Global, size: Option<usize>) -> Result<Vec<u8>, AllocError>
    ensures { (n : ℕ) → IsSize n size → IfOk result (λ tape. tape.items ≡ replicate n 0) }
{
    let tape = vec![in alloc; 0; size.unwrap_or(usize::MAX)]?;
    Ok(tape)
}
