//! A node of the type graph: one IDL type, its parts named by their numbers in the graph.

ghost use Rattle.std.specs.Prelude.{◌≡◌, ◌++◌, length, map, option_to_list, slice_get};
ghost use Rattle.type_graph.specs.Value.{number_width};
ghost use Rattle.type_graph.specs.GraphRules.{held_by};

use crate::items::{Arms, Members};
use crate::width::Width;

/// One type of the graph (ISO/IEC 19500-1, type declarations). A number names the node at that
/// place of the graph's list. A bound of 0 is none.
#[derive(Drop, PartialEq)]
pub enum Node {
    /// An integer type of 2, 4 or 8 octets.
    Integer {
        width: Width,
        signed: bool,
    },
    Octet,
    Char,
    Boolean,
    /// An enumeration of `n` enumerators.
    Enum {
        n: u32,
    },
    /// A string of at most `bound` octets.
    Text {
        bound: u32,
    },
    /// A sequence of at most `bound` elements.
    Seq {
        elem: u32,
        bound: u32,
    },
    /// An array of `n` elements.
    Array {
        elem: u32,
        n: u32,
    },
    Struct {
        members: Members,
    },
    /// A union: the type of its discriminator, the member of each label, and the member of every
    /// other value.
    Union {
        switch: u32,
        arms: Arms,
        default: Option<u32>,
    },
    /// What an operation or an exception carries: a structure that may be empty, and that no node
    /// refers to.
    Frame {
        members: Members,
    },
}

/// What a union's labels choose, and behind it what every other value does.
fn chosen_at(arms: &[(i128, u32)], default: Option<u32>, place: usize) -> Option<u32>
    ensures { result ≡ slice_get (map (λ arm. arm.1) arms.now ++ option_to_list default) place }
{
    if place < arms.len() {
        return Some(arms[place].1);
    }
    if place == arms.len() {
        return default;
    }
    None
}

impl Node {
    /// The size of the node's numbers, where these are its values: of an integer its own, of an
    /// enumeration 4 octets, else one.
    pub fn number_width(&self) -> Width
        ensures { result ≡ number_width self.now }
    {
        match self {
            Node::Integer { width, .. } => *width,
            Node::Enum { .. } => Width::Four,
            _ => Width::One,
        }
    }

    /// How many nodes a value of this one holds without a sequence between, each counted as often
    /// as it is named; the type of a union's discriminator isn't.
    pub fn held_count(&self) -> usize
        ensures { result ≡ length (held_by self.now) }
    {
        match self {
            Node::Array { .. } => 1,
            Node::Struct { members } | Node::Frame { members } => members.as_slice().len(),
            Node::Union { arms, default, .. } => {
                arms.as_slice().len() + usize::from(default.is_some())
            }
            _ => 0,
        }
    }

    /// The number of the one at a place, of a union first those of its arms.
    pub fn held_at(&self, place: usize) -> Option<u32>
        ensures { result ≡ slice_get (held_by self.now) place }
    {
        match self {
            Node::Array { elem, .. } if place == 0 => Some(*elem),
            Node::Struct { members } | Node::Frame { members } => {
                members.as_slice().get(place).copied()
            }
            Node::Union { arms, default, .. } => chosen_at(arms.as_slice(), *default, place),
            _ => None,
        }
    }
}
