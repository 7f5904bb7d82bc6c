//! How many pieces of a kind each node of a graph is made of, so that many can be taken at once.

ghost use Rattle.std.specs.Prelude.{◌≡◌, ◌<◌, ◌≤◌, ◌-◌, ◌++◌, drop, length, ◌*◌, ◌&&◌, List, ℕ, Some, None, IfOk, IfSome, IsTrue, true};
ghost use Rattle.type_graph.specs.declared.node.Node.{Node};
ghost use Rattle.type_graph.specs.Value.{node_at};
ghost use Rattle.routine_checker.specs.Taking.{parts_of, taken, is_piece};
ghost use Rattle.routine_checker.specs.inner.Kinds.{is_of, is_piece_of};
ghost use Rattle.routine_checker.specs.inner.Counts.{parts_in, pieces_in, IsMade, AreEntries};

use crate::pieces::{RunKind, is_of_at};
use marshal_program::{Instr, Routine};
use std::alloc::{AllocError, Global};
use type_graph::{Graph, Node};

/// What a node may be made of: nodes of a kind, or one node.
#[derive(Clone, Copy, Debug, PartialEq, Eq)]
pub enum Piece {
    Kind { kind: RunKind },
    Node { number: u32 },
}

/// The node of the number is made of so many of the pieces.
#[derive(Clone, Copy)]
pub struct CountedNode {
    pub number: u32,
    pub piece: Piece,
    pub n: u32,
}

pub fn is_same(piece: Piece, other: Piece) -> bool
    ensures { IsTrue result → piece ≡ other }
{
    piece == other
}

fn is_piece_of(nodes: &[Node], piece: Piece, number: u32) -> bool
    ensures { result ≡ is_piece_of piece nodes.now number }
{
    match piece {
        Piece::Kind { kind } => is_of_at(nodes, kind, number),
        Piece::Node { number: wanted } => wanted == number,
    }
}

/// The kind of a node that has one.
fn kind_at(nodes: &[Node], number: u32) -> Option<RunKind>
    ensures { IfSome result (λ kind. is_of kind (node_at nodes.now number) ≡ true) }
{
    match nodes.get(number as usize) {
        Some(Node::Octet) | Some(Node::Char) => Some(RunKind::Octet),
        Some(Node::Boolean) => Some(RunKind::Boolean),
        Some(Node::Integer { width, .. }) => Some(RunKind::Word(*width)),
        _ => None,
    }
}

/// The first part of a node that is opened.
fn first_part(node: &Node) -> Option<u32> {
    match node {
        Node::Array { elem, .. } => Some(*elem),
        Node::Struct { members } | Node::Frame { members } => members.as_slice().first().copied(),
        _ => None,
    }
}

/// So many times so many, 0 where an instruction can't take them all.
fn product(n: u32, count: u32) -> u32
    ensures known { 0 < result → 0 < count }
    ensures product { 0 < result → n * count ≡ result }
{
    if count == 0 || n > u32::MAX / count {
        return 0;
    }
    n * count
}

/// What the nodes of a graph are made of. The entries of a node follow one another, from a place
/// that stands at its number.
#[derive(Drop)]
pub struct Entries {
    pub starts: Vec<usize>,
    pub entries: Vec<CountedNode>,
}

impl Entries {
    fn start(&self, number: u32) -> usize {
        match self.starts.get(number as usize) {
            Some(start) => *start,
            None => usize::MAX,
        }
    }

    /// How many of the pieces the node is made of, 0 where that isn't known.
    pub fn of(&self, piece: Piece, number: u32) -> u32
        ensures { (graph : List Node) → AreEntries graph self.now → 0 < result
            → pieces_in 64 (is_piece_of piece graph) graph number ≡ result }
    {
        let entries = self.entries.as_slice();
        for at in self.start(number)..entries.len() {
            let made = entries[at];
            if made.number != number {
                return 0;
            }
            if is_same(made.piece, piece) {
                return made.n;
            }
        }
        0
    }

    /// The members together, 0 where one of them isn't known.
    fn of_members(&self, piece: Piece, members: &[u32]) -> u32
        ensures { (graph : List Node) → AreEntries graph self.now → 0 < result
            → parts_in (pieces_in 64 (is_piece_of piece graph) graph) (Some members.now) ≡ result }
    {
        let mut sum = 0u32;
        for member in members {
            let count = self.of(piece, *member);
            if count == 0 || count > u32::MAX - sum {
                return 0;
            }
            sum += count;
        }
        sum
    }

    /// How many of the nodes in front are made of the pieces, as long as more of these are wanted,
    /// and how many these are.
    pub fn front(&self, piece: Piece, numbers: &[u32], wanted: u32) -> (usize, u32)
        ensures passed { result.0 ≤ length numbers.now }
        ensures within { result.1 ≤ wanted }
        ensures taken { (graph : List Node) → AreEntries graph self.now → (more : List ℕ)
            → taken wanted (is_piece_of piece graph) graph (numbers.now ++ more)
            ≡ taken (wanted - result.1) (is_piece_of piece graph) graph (drop result.0 numbers.now ++ more) }
    {
        let mut taken = 0;
        for at in 0..numbers.len() {
            let count = self.of(piece, numbers[at]);
            if count == 0 || count > wanted - taken {
                return (at, taken);
            }
            taken += count;
        }
        (numbers.len(), taken)
    }

    /// The parts of a node together.
    fn of_parts(&self, piece: Piece, node: &Node) -> u32
        ensures { (graph : List Node) → AreEntries graph self.now → 0 < result
            → parts_in (pieces_in 64 (is_piece_of piece graph) graph) (parts_of node.now) ≡ result }
    {
        match node {
            Node::Array { elem, n } => product(*n, self.of(piece, *elem)),
            Node::Struct { members } | Node::Frame { members } => {
                self.of_members(piece, members.as_slice())
            }
            _ => 0,
        }
    }

    fn add(&mut self, made: CountedNode) -> Result<(), AllocError>
        ensures { (graph : List Node) → AreEntries graph self.old → IsMade graph made → AreEntries graph self.new }
    {
        self.entries.push(made)?;
        Ok(())
    }

    /// The node itself, and its kind.
    fn add_own(&mut self, nodes: &[Node], number: u32) -> Result<(), AllocError>
        requires { AreEntries nodes.now self.old }
        ensures { AreEntries nodes.now self.new }
    {
        self.add(CountedNode {
            number,
            piece: Piece::Node { number },
            n: 1,
        })?;
        if let Some(kind) = kind_at(nodes, number) {
            self.add(CountedNode {
                number,
                piece: Piece::Kind { kind },
                n: 1,
            })?;
        }
        Ok(())
    }

    /// The pieces that the parts of the node are made of.
    fn add_parts(
        &mut self,
        graph: &Graph,
        piece: Piece,
        number: u32,
        node: &Node,
    ) -> Result<(), AllocError>
        requires node { node_at graph.now number ≡ node.now }
        requires counts { AreEntries graph.now self.old }
        ensures { AreEntries graph.now self.new }
    {
        if is_piece_of(graph.nodes(), piece, number) {
            return Ok(());
        }
        let n = self.of_parts(piece, node);
        if n > 0 {
            self.add(CountedNode { number, piece, n })?;
        }
        Ok(())
    }

    /// The piece of the entry at a place, if it is one of the node.
    fn piece_at(&self, number: u32, at: usize) -> Option<Piece> {
        match self.entries.get(at) {
            Some(made) if made.number == number => Some(made.piece),
            _ => None,
        }
    }

    /// A node whose parts were added before: what its first part is made of, if all of them are.
    fn add_node(&mut self, graph: &Graph, number: u32, node: &Node) -> Result<(), AllocError>
        requires node { node_at graph.now number ≡ node.now }
        requires counts { AreEntries graph.now self.old }
        ensures { AreEntries graph.now self.new }
    {
        self.add_own(graph.nodes(), number)?;
        let first = match first_part(node) {
            Some(first) => first,
            None => return Ok(()),
        };
        for at in self.start(first)..self.entries.len() {
            let piece = match self.piece_at(first, at) {
                Some(piece) => piece,
                None => return Ok(()),
            };
            self.add_parts(graph, piece, number, node)?;
        }
        Ok(())
    }

    /// What is added next is of the node.
    fn begin(&mut self, number: usize)
        ensures { self.new.entries ≡ self.old.entries }
    {
        if number < self.starts.len() {
            self.starts[number] = self.entries.len();
        }
    }

    /// The nodes of a height.
    fn add_height(&mut self, graph: &Graph, heights: &[u32], height: u32) -> Result<(), AllocError>
        requires { AreEntries graph.now self.old }
        ensures { AreEntries graph.now self.new }
    {
        let nodes = graph.nodes();
        for number in 0..nodes.len() {
            if heights.get(number) == Some(&height) {
                self.begin(number);
                self.add_node(graph, number as u32, &nodes[number])?;
            }
        }
        Ok(())
    }

    /// Each node behind its parts, so that it is looked at once.
    pub fn new(alloc: Global, graph: &Graph) -> Result<Entries, AllocError>
        ensures { IfOk result (λ counts. AreEntries graph.now counts) }
    {
        let heights = graph.heights(alloc)?;
        let highest = heights.iter().copied().max().unwrap_or(0);
        let mut counts = Entries {
            starts: vec![in alloc; usize::MAX; heights.len()]?,
            entries: Vec::new(alloc),
        };
        for height in 0..=highest {
            counts.add_height(graph, heights.as_slice(), height)?;
        }
        Ok(counts)
    }
}

/// What an instruction takes many of.
pub fn piece_of(program: &[Routine], instr: &Instr) -> Option<Piece>
    ensures { IfSome result (λ piece. (graph : List Node)
        → is_piece graph program.now instr.now ≡ is_piece_of piece graph) }
{
    match instr {
        Instr::Octets { .. } => Some(Piece::Kind {
            kind: RunKind::Octet,
        }),
        Instr::Bools { .. } => Some(Piece::Kind {
            kind: RunKind::Boolean,
        }),
        Instr::Words { width, .. } => Some(Piece::Kind {
            kind: RunKind::Word(*width),
        }),
        Instr::Times { routine, .. } => match program.get(*routine as usize) {
            Some(routine) => Some(Piece::Node {
                number: routine.node,
            }),
            None => None,
        },
        _ => None,
    }
}
