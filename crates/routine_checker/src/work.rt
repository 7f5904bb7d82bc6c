//! The work that is left of a node.

ghost use Rattle.std.specs.Prelude.{ℕ, List, ◌≡◌, ◌<◌, ◌≤◌, ◌-◌, [], ◌∷◌, ◌++◌, IfOk, IfSome, IfNone, IsTrue, IsFalse, Some, None, replicate};
ghost use Rattle.type_graph.specs.Value.{node_at};
ghost use Rattle.routine_checker.specs.Taking.{parts_of, taken_within, taken, is_done_within};
ghost use Rattle.routine_checker.specs.inner.Counts.{Yields};
ghost use Rattle.routine_checker.specs.inner.Noted.{AreCounts};
ghost use Rattle.routine_checker.specs.inner.Work.{wants, held, held_of, work_of};

use crate::noted::Counts;
use crate::pieces::is_piece;
use marshal_program::{Instr, Routine};
use std::alloc::{AllocError, Global};
use type_graph::Node;

/// The nodes that an instruction of a program takes.
#[derive(Clone, Copy)]
pub struct NodesTaken<'g> {
    pub nodes: &'g [Node],
    pub program: &'g [Routine],
    pub instr: &'g Instr,
}

impl<'g> NodesTaken<'g> {
    fn is(self, number: u32) -> bool
        ensures { result ≡ wants self.entry number }
    {
        is_piece(self.nodes, self.program, self.instr, number)
    }

    /// How many of them the node is made of, 0 where that isn't known.
    #[tactic(auto, using(crate::proofs::CountLaws::took_wanted))]
    fn count(self, counts: &Counts, number: u32) -> u32
        requires { AreCounts self.nodes.now counts.now }
        ensures { 0 < result → Yields result (wants self.entry) self.entry.nodes.now number }
    {
        if self.is(number) {
            return 1;
        }
        counts.pieces(self.program, self.instr, number)
    }
}

/// Nodes that follow one another.
#[derive(Clone, Copy)]
pub enum Item<'g> {
    Copies { number: u32, n: u32 },
    Numbers { numbers: &'g [u32] },
}

impl<'g> Item<'g> {
    fn is_empty(self) -> bool
        ensures { IsTrue result → held self.entry ≡ [] }
    {
        match self {
            Item::Copies { n, .. } => n == 0,
            Item::Numbers { numbers } => numbers.is_empty(),
        }
    }

    /// The first of them, how many of it follow one another here, and the rest.
    fn split(self) -> Option<(u32, u32, Item<'g>)>
        ensures some { IfSome result (λ split. held self.entry ≡ replicate split.1 split.0 ++ held split.2) }
        ensures many { IfSome result (λ split. 0 < split.1) }
        ensures none { IfNone result (held self.entry ≡ []) }
    {
        match self {
            Item::Copies { n: 0, .. } => None,
            Item::Copies { number, n } => Some((number, n, Item::Numbers { numbers: &[] })),
            Item::Numbers { numbers } => match numbers.split_first() {
                Some((number, rest)) => Some((*number, 1, Item::Numbers { numbers: rest })),
                None => None,
            },
        }
    }
}

/// What a node is opened into.
fn parts_of(node: &Node) -> Option<Item<'_>>
    ensures { held_of result ≡ parts_of node.now }
{
    match node {
        Node::Array { elem, n } => Some(Item::Copies {
            number: *elem,
            n: *n,
        }),
        Node::Struct { members } | Node::Frame { members } => Some(Item::Numbers {
            numbers: members.as_slice(),
        }),
        _ => None,
    }
}

fn parts_at(nodes: &[Node], number: u32) -> Option<Item<'_>>
    ensures { held_of result ≡ parts_of (node_at nodes.now number) }
{
    match nodes.get(number as usize) {
        Some(node) => parts_of(node),
        None => None,
    }
}

impl<'g> NodesTaken<'g> {
    /// What a node is opened into that is made of more than so many pieces.
    fn parts_of_more(self, counts: &Counts, pieces: u32, number: u32) -> Option<Item<'g>>
        requires some { 0 < pieces }
        requires counts { AreCounts self.nodes.now counts.now }
        ensures { IfSome result (λ parts. (more : List ℕ)
            → taken pieces (wants self.entry) self.entry.nodes.now (number ∷ more)
            ≡ taken pieces (wants self.entry) self.entry.nodes.now (held parts ++ more)) }
    {
        if self.is(number) || counts.pieces(self.program, self.instr, number) <= pieces {
            return None;
        }
        parts_at(self.nodes, number)
    }
}

impl<'g> NodesTaken<'g> {
    /// How many pieces the nodes in front are made of, as long as more are wanted, and the nodes
    /// behind these.
    fn front(self, counts: &Counts, pieces: u32, item: Item<'g>) -> (u32, Item<'g>)
        requires { AreCounts self.nodes.now counts.now }
        ensures within { result.0 ≤ pieces }
        ensures taken { (more : List ℕ) → taken pieces (wants self.entry) self.entry.nodes.now (held item.entry ++ more)
            ≡ taken (pieces - result.0) (wants self.entry) self.entry.nodes.now (held result.1 ++ more) }
    {
        match item {
            Item::Numbers { numbers } => {
                let (passed, n) = counts.pieces_in_front(self.program, self.instr, numbers, pieces);
                let (_, rest) = numbers.split_at(passed);
                (n, Item::Numbers { numbers: rest })
            }
            Item::Copies { number, n } => (0, Item::Copies { number, n }),
        }
    }
}

/// The nodes whose values are still to be related: what comes first stands last in the list.
#[derive(Drop)]
pub struct Work<'g> {
    pub items: Vec<Item<'g>>,
}

impl<'g> Work<'g> {
    /// The work of one node.
    pub fn new(alloc: Global, number: u32) -> Result<Work<'g>, AllocError>
        ensures { IfOk result (λ work. work_of work.items.items ≡ number ∷ []) }
    {
        let mut items = Vec::new(alloc);
        items.push(Item::Copies { number, n: 1 })?;
        Ok(Work { items })
    }

    /// Puts nodes in front, if there are some.
    #[tactic(auto, using(crate::proofs::WorkLaws::work_pushed, crate::proofs::WorkLaws::nothing_put))]
    fn put(&mut self, item: Item<'g>) -> Result<(), AllocError>
        ensures { IfOk result (λ done. work_of self.new.items.items ≡ held item.entry ++ work_of self.old.items.items) }
    {
        if item.is_empty() {
            return Ok(());
        }
        self.items.push(item)?;
        Ok(())
    }

    /// Takes the first node away, and how many copies of it follow one another.
    fn next_copies(&mut self) -> Result<Option<(u32, u32)>, AllocError>
        ensures some { IfOk result
            (λ first. IfSome first (λ copies. work_of self.old.items.items
            ≡ replicate copies.1 copies.0 ++ work_of self.new.items.items)) }
        ensures many { IfOk result (λ first. IfSome first (λ copies. 0 < copies.1)) }
        ensures none { IfOk result (λ first. IfNone first (work_of self.old.items.items ≡ [])) }
        ensures empty { IfOk result (λ first. IfNone first (work_of self.new.items.items ≡ [])) }
    {
        while let Some(item) = self.items.pop() {
            if let Some((number, n, rest)) = item.split() {
                self.put(rest)?;
                return Ok(Some((number, n)));
            }
        }
        Ok(None)
    }

    /// Takes the first node away.
    #[tactic(auto, using(crate::proofs::WorkLaws::first_copy))]
    fn next(&mut self) -> Result<Option<u32>, AllocError>
        ensures some { IfOk result
            (λ first. IfSome first (λ number. work_of self.old.items.items ≡ number ∷ work_of self.new.items.items)) }
        ensures none { IfOk result (λ first. IfNone first (work_of self.old.items.items ≡ [])) }
    {
        match self.next_copies()? {
            Some((number, n)) => {
                self.put(Item::Copies { number, n: n - 1 })?;
                Ok(Some(number))
            }
            None => Ok(None),
        }
    }

    /// Takes the first of these parts away, or of the work behind them where there are none. A part
    /// that is alone is never put, which would take longer.
    #[tactic(auto, using(crate::proofs::WorkLaws::first_copy))]
    fn next_of(&mut self, parts: Item<'g>) -> Result<Option<u32>, AllocError>
        ensures some { IfOk result (λ first. IfSome first
            (λ number. held parts.entry ++ work_of self.old.items.items ≡ number ∷ work_of self.new.items.items)) }
        ensures none { IfOk result (λ first. IfNone first (held parts.entry ++ work_of self.old.items.items ≡ [])) }
    {
        match parts.split() {
            Some((number, n, rest)) => {
                self.put(rest)?;
                self.put(Item::Copies { number, n: n - 1 })?;
                Ok(Some(number))
            }
            None => self.next(),
        }
    }

    /// Takes the first node that the instruction wants, if nothing but opened nodes stands before
    /// it.
    fn take_one(&mut self, wanted: NodesTaken<'g>) -> Result<bool, AllocError>
        ensures taken { IfOk result (λ took. IsTrue took
            → taken_within 64 (wants wanted.entry) wanted.entry.nodes.now (work_of self.old.items.items)
            ≡ Some (work_of self.new.items.items)) }
        ensures refused { IfOk result (λ took. IsFalse took
            → taken_within 64 (wants wanted.entry) wanted.entry.nodes.now (work_of self.old.items.items) ≡ None) }
    {
        let mut parts = Item::Numbers { numbers: &[] };
        for level in 0..64u32 {
            let number = match self.next_of(parts)? {
                Some(number) => number,
                None => return Ok(false),
            };
            if wanted.is(number) {
                return Ok(true);
            }
            parts = match parts_at(wanted.nodes, number) {
                Some(parts) => parts,
                None => return Ok(false),
            };
        }
        Ok(false)
    }

    /// Opens the first node as long as it is made of more pieces than are wanted.
    fn open(
        &mut self,
        wanted: NodesTaken<'g>,
        counts: &Counts,
        pieces: u32,
    ) -> Result<(), AllocError>
        requires some { 0 < pieces }
        requires counts { AreCounts wanted.nodes.now counts.now }
        ensures { IfOk result (λ done. taken pieces (wants wanted.entry) wanted.entry.nodes.now
            (work_of self.old.items.items)
            ≡ taken pieces (wants wanted.entry) wanted.entry.nodes.now (work_of self.new.items.items)) }
    {
        for level in 0..64u32 {
            let (number, copies) = match self.next_copies()? {
                Some(first) => first,
                None => return Ok(()),
            };
            let parts = match wanted.parts_of_more(counts, pieces, number) {
                Some(parts) => parts,
                None => {
                    self.put(Item::Copies { number, n: copies })?;
                    return Ok(());
                }
            };
            self.put(Item::Copies {
                number,
                n: copies.saturating_sub(1),
            })?;
            self.put(parts)?;
        }
        Ok(())
    }

    /// Takes some of the wanted pieces, as many as are in copies of one node, and tells how many;
    /// none where the first can't be taken.
    fn take_some(
        &mut self,
        wanted: NodesTaken<'g>,
        counts: &Counts,
        pieces: u32,
    ) -> Result<u32, AllocError>
        requires some { 0 < pieces }
        requires counts { AreCounts wanted.nodes.now counts.now }
        ensures within { IfOk result (λ n. n ≤ pieces) }
        ensures taken { IfOk result (λ n. 0 < n
            → taken pieces (wants wanted.entry) wanted.entry.nodes.now (work_of self.old.items.items)
            ≡ taken (pieces - n) (wants wanted.entry) wanted.entry.nodes.now (work_of self.new.items.items)) }
        ensures refused { IfOk result (λ n. n ≡ 0
            → taken pieces (wants wanted.entry) wanted.entry.nodes.now (work_of self.old.items.items) ≡ None) }
    {
        let (number, copies) = match self.next_copies()? {
            Some(first) => first,
            None => return Ok(0),
        };
        let count = wanted.count(counts, number);
        if 0 < count && count <= pieces {
            let n = copies.min(pieces / count);
            self.put(Item::Copies {
                number,
                n: copies - n,
            })?;
            return Ok(n * count);
        }
        self.put(Item::Copies { number, n: copies })?;
        Ok(if self.take_one(wanted)? { 1 } else { 0 })
    }

    /// Takes the nodes in front that are made of the wanted pieces, as long as more are wanted, and
    /// tells how many pieces these are.
    fn take_front(
        &mut self,
        wanted: NodesTaken<'g>,
        counts: &Counts,
        pieces: u32,
    ) -> Result<u32, AllocError>
        requires { AreCounts wanted.nodes.now counts.now }
        ensures within { IfOk result (λ n. n ≤ pieces) }
        ensures taken { IfOk result
            (λ n. taken pieces (wants wanted.entry) wanted.entry.nodes.now (work_of self.old.items.items)
            ≡ taken (pieces - n) (wants wanted.entry) wanted.entry.nodes.now (work_of self.new.items.items)) }
    {
        let item = match self.items.pop() {
            Some(item) => item,
            None => return Ok(0),
        };
        let (n, rest) = wanted.front(counts, pieces, item);
        self.put(rest)?;
        Ok(n)
    }

    /// Takes some of the wanted pieces, and tells how many; none where the first can't be taken.
    fn take_more(
        &mut self,
        wanted: NodesTaken<'g>,
        counts: &Counts,
        pieces: u32,
    ) -> Result<u32, AllocError>
        requires some { 0 < pieces }
        requires counts { AreCounts wanted.nodes.now counts.now }
        ensures within { IfOk result (λ n. n ≤ pieces) }
        ensures taken { IfOk result (λ n. 0 < n
            → taken pieces (wants wanted.entry) wanted.entry.nodes.now (work_of self.old.items.items)
            ≡ taken (pieces - n) (wants wanted.entry) wanted.entry.nodes.now (work_of self.new.items.items)) }
        ensures refused { IfOk result (λ n. n ≡ 0
            → taken pieces (wants wanted.entry) wanted.entry.nodes.now (work_of self.old.items.items) ≡ None) }
    {
        let n = self.take_front(wanted, counts, pieces)?;
        if n > 0 {
            return Ok(n);
        }
        self.open(wanted, counts, pieces)?;
        self.take_some(wanted, counts, pieces)
    }

    /// Takes so many pieces of an instruction, and tells whether they were there.
    pub fn take(
        &mut self,
        wanted: NodesTaken<'g>,
        counts: &Counts,
        pieces: u32,
    ) -> Result<bool, AllocError>
        requires { AreCounts wanted.nodes.now counts.now }
        ensures taken { IfOk result (λ took. IsTrue took
            → taken pieces (wants wanted.entry) wanted.entry.nodes.now (work_of self.old.items.items)
            ≡ Some (work_of self.new.items.items)) }
        ensures refused { IfOk result (λ took. IsFalse took
            → taken pieces (wants wanted.entry) wanted.entry.nodes.now (work_of self.old.items.items) ≡ None) }
    {
        let mut left = pieces;
        while left > 0 {
            let n = self.take_more(wanted, counts, left)?;
            if n == 0 {
                return Ok(false);
            }
            left -= n;
        }
        Ok(true)
    }

    /// Whether nothing but empty frames is left.
    pub fn is_done(&mut self, nodes: &'g [Node]) -> Result<bool, AllocError>
        ensures { IfOk result (λ done. done ≡ is_done_within 64 nodes.now (work_of self.old.items.items)) }
    {
        for level in 0..64u32 {
            let number = match self.next()? {
                Some(number) => number,
                None => return Ok(true),
            };
            match parts_at(nodes, number) {
                Some(parts) => self.put(parts)?,
                None => return Ok(false),
            }
        }
        Ok(false)
    }
}
