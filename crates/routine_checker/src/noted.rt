//! How many pieces each node of a graph is made of, at hand for pieces of which many are taken.

ghost use Rattle.std.specs.Prelude.{◌≡◌, ◌<◌, ◌≤◌, ◌-◌, ◌++◌, drop, length, List, ℕ, IfOk, IfSome, slice_index_or};
ghost use Rattle.type_graph.specs.declared.node.Node.{Node};
ghost use Rattle.routine_checker.specs.declared.counts.Piece.{Piece};
ghost use Rattle.routine_checker.specs.Taking.{taken, is_piece};
ghost use Rattle.routine_checker.specs.inner.Kinds.{is_piece_of};
ghost use Rattle.routine_checker.specs.inner.Counts.{AreEntries, Yields};
ghost use Rattle.routine_checker.specs.inner.Noted.{AreCounts, IsNoted};

use crate::counts::{Entries, Piece, is_same, piece_of};
use crate::pieces::{RunKind, pieces};
use marshal_program::{Instr, Routine};
use std::alloc::{AllocError, Global};
use type_graph::{Graph, Width};

/// From so many pieces on it is worth it to note of all nodes how many they are made of.
const MANY: u32 = 256;

/// How many nodes are looked at at once.
const BLOCK: usize = 16;

/// How many nodes a graph may have.
const MAX_NODES: u32 = 4096;

/// How many pieces there may be: kinds, and nodes.
const MAX_PIECES: usize = 4102;

/// Of how many of the pieces each node is made, by its number, 0 where that isn't known.
#[derive(Drop)]
pub struct Noted {
    pub piece: Piece,
    pub counts: Vec<u32>,
}

/// What the nodes of a graph are made of.
#[derive(Drop)]
pub struct Counts {
    pub entries: Entries,
    pub noted: Vec<Noted>,
    /// Where a piece stands among these, by the number of the piece.
    pub places: Vec<usize>,
}

fn kind_number(kind: RunKind) -> usize {
    match kind {
        RunKind::Octet => 0,
        RunKind::Boolean => 1,
        RunKind::Word(Width::One) => 2,
        RunKind::Word(Width::Two) => 3,
        RunKind::Word(Width::Four) => 4,
        RunKind::Word(Width::Eight) => 5,
    }
}

fn piece_number(piece: Piece) -> usize {
    match piece {
        Piece::Kind { kind } => kind_number(kind),
        Piece::Node { number } => number as usize + 6,
    }
}

fn count_at(counts: &[u32], number: u32) -> u32
    ensures { result ≡ slice_index_or counts.now number 0 }
{
    counts.get(number as usize).copied().unwrap_or(0)
}

/// Of how many of the pieces the nodes are made, 0 where that isn't known of each. No step depends
/// on what one of them has, so a processor looks at several at a time.
fn sum_noted(counts: &[u32], numbers: &[u32]) -> u64
    requires { length numbers.now ≤ 16 }
    ensures { (graph : List Node) (piece : Piece) → IsNoted graph piece counts.now → 0 < result
        → (more : List ℕ) → taken result (is_piece_of piece graph) graph (numbers.now ++ more) ≡ Some more }
{
    let mut sum = 0u64;
    let mut least = u32::MAX;
    for at in 0..numbers.len() {
        let count = count_at(counts, numbers[at]);
        least = least.min(count);
        sum += u64::from(count);
    }
    if least == 0 { 0 } else { sum }
}

/// As `front_noted`, but so many nodes at a time.
fn blocks_noted(counts: &[u32], numbers: &[u32], wanted: u32) -> (usize, u32)
    ensures passed { result.0 ≤ length numbers.now }
    ensures within { result.1 ≤ wanted }
    ensures taken { (graph : List Node) (piece : Piece) → IsNoted graph piece counts.now → (more : List ℕ)
        → taken wanted (is_piece_of piece graph) graph (numbers.now ++ more)
        ≡ taken (wanted - result.1) (is_piece_of piece graph) graph (drop result.0 numbers.now ++ more) }
{
    let mut rest = numbers;
    let mut taken = 0;
    for at in 0..numbers.len() / BLOCK {
        let (block, behind) = rest.split_at(BLOCK);
        let count = sum_noted(counts, block);
        if count == 0 || count > u64::from(wanted - taken) {
            return (at * BLOCK, taken);
        }
        taken += count as u32;
        rest = behind;
    }
    (numbers.len() / BLOCK * BLOCK, taken)
}

/// How many of the nodes in front are made of the pieces, as long as more of these are wanted, and
/// how many these are.
fn front_noted(counts: &[u32], numbers: &[u32], wanted: u32) -> (usize, u32)
    ensures passed { result.0 ≤ length numbers.now }
    ensures within { result.1 ≤ wanted }
    ensures taken { (graph : List Node) (piece : Piece) → IsNoted graph piece counts.now → (more : List ℕ)
        → taken wanted (is_piece_of piece graph) graph (numbers.now ++ more)
        ≡ taken (wanted - result.1) (is_piece_of piece graph) graph (drop result.0 numbers.now ++ more) }
{
    let (passed, before) = blocks_noted(counts, numbers, wanted);
    let mut taken = before;
    for at in passed..numbers.len() {
        let count = count_at(counts, numbers[at]);
        if count == 0 || count > wanted - taken {
            return (at, taken);
        }
        taken += count;
    }
    (numbers.len(), taken)
}

impl Counts {
    /// Of the pieces of these entries, of which none is noted yet.
    fn of_entries(alloc: Global, entries: Entries) -> Result<Counts, AllocError>
        ensures { IfOk result (λ counts. (graph : List Node) → AreEntries graph entries → AreCounts graph counts) }
    {
        let places = vec![in alloc; usize::MAX; MAX_PIECES]?;
        Ok(Counts {
            entries,
            noted: Vec::new(alloc),
            places,
        })
    }

    /// What the nodes are made of, and noted the pieces of which a program takes many at once.
    pub fn new(alloc: Global, graph: &Graph, program: &[Routine]) -> Result<Counts, AllocError>
        ensures { IfOk result (λ counts. AreCounts graph.now counts) }
    {
        let mut counts = Counts::of_entries(alloc, Entries::new(alloc, graph)?)?;
        for routine in program {
            counts.note_all(alloc, program, routine.code.as_slice())?;
        }
        Ok(counts)
    }

    /// What is noted of a piece.
    fn noted_of(&self, piece: Piece) -> Option<&[u32]>
        ensures { IfSome result (λ counts. (graph : List Node) → AreCounts graph self.now
            → IsNoted graph piece counts.now) }
    {
        let place = *self.places.get(piece_number(piece))?;
        let noted = self.noted.get(place)?;
        if is_same(noted.piece, piece) {
            return Some(noted.counts.as_slice());
        }
        None
    }

    /// Of how many of the pieces each node is made.
    fn counted(&self, alloc: Global, piece: Piece) -> Result<Vec<u32>, AllocError>
        ensures { IfOk result (λ counts. (graph : List Node) → AreCounts graph self.now
            → IsNoted graph piece counts.items) }
    {
        let mut counts = Vec::new(alloc);
        for number in 0..MAX_NODES {
            counts.push(self.entries.of(piece, number))?;
        }
        Ok(counts)
    }

    fn note_piece(&mut self, alloc: Global, piece: Piece) -> Result<(), AllocError>
        ensures { (graph : List Node) → AreCounts graph self.old → AreCounts graph self.new }
    {
        let counts = self.counted(alloc, piece)?;
        let number = piece_number(piece);
        if number < self.places.len() {
            self.places[number] = self.noted.len();
        }
        self.noted.push(Noted { piece, counts })?;
        Ok(())
    }

    /// Notes the pieces of an instruction, if it takes many.
    fn note(&mut self, alloc: Global, program: &[Routine], instr: &Instr) -> Result<(), AllocError>
        ensures { (graph : List Node) → AreCounts graph self.old → AreCounts graph self.new }
    {
        if pieces(instr) < MANY {
            return Ok(());
        }
        match piece_of(program, instr) {
            Some(piece) if self.noted_of(piece).is_none() => self.note_piece(alloc, piece),
            _ => Ok(()),
        }
    }

    fn note_all(
        &mut self,
        alloc: Global,
        program: &[Routine],
        code: &[Instr],
    ) -> Result<(), AllocError>
        ensures { (graph : List Node) → AreCounts graph self.old → AreCounts graph self.new }
    {
        for instr in code {
            self.note(alloc, program, instr)?;
        }
        Ok(())
    }

    /// How many of the nodes in front are made of the pieces, as long as more of these are wanted,
    /// and how many these are.
    fn front(&self, piece: Piece, numbers: &[u32], wanted: u32) -> (usize, u32)
        ensures passed { result.0 ≤ length numbers.now }
        ensures within { result.1 ≤ wanted }
        ensures taken { (graph : List Node) → AreCounts graph self.now → (more : List ℕ)
            → taken wanted (is_piece_of piece graph) graph (numbers.now ++ more)
            ≡ taken (wanted - result.1) (is_piece_of piece graph) graph (drop result.0 numbers.now ++ more) }
    {
        match self.noted_of(piece) {
            Some(counts) => front_noted(counts, numbers, wanted),
            None => self.entries.front(piece, numbers, wanted),
        }
    }

    /// How many pieces of the instruction the node is made of, 0 where that isn't known.
    pub fn pieces(&self, program: &[Routine], instr: &Instr, number: u32) -> u32
        ensures { (graph : List Node) → AreCounts graph self.now → 0 < result
            → Yields result (is_piece graph program.now instr.now) graph number }
    {
        match piece_of(program, instr) {
            Some(piece) => self.entries.of(piece, number),
            None => 0,
        }
    }

    /// The same of the nodes in front, as long as more pieces are wanted.
    pub fn pieces_in_front(
        &self,
        program: &[Routine],
        instr: &Instr,
        numbers: &[u32],
        wanted: u32,
    ) -> (usize, u32)
        ensures passed { result.0 ≤ length numbers.now }
        ensures within { result.1 ≤ wanted }
        ensures taken { (graph : List Node) → AreCounts graph self.now → (more : List ℕ)
            → taken wanted (is_piece graph program.now instr.now) graph (numbers.now ++ more)
            ≡ taken (wanted - result.1) (is_piece graph program.now instr.now) graph
            (drop result.0 numbers.now ++ more) }
    {
        match piece_of(program, instr) {
            Some(piece) => self.front(piece, numbers, wanted),
            None => (0, 0),
        }
    }
}
