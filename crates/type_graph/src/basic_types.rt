//! The types that every specification has before its own.

ghost use Rattle.std.specs.Prelude.{◌≡◌, IfOk};
ghost use Rattle.type_graph.specs.declared.node.Node.TheVariants.{Integer};
ghost use Rattle.type_graph.specs.BasicNodes.{basic_nodes as the_basic_nodes};

use crate::{Members, Node, Width};
use std::alloc::{AllocError, Global};

/// So many nodes are given to every specification.
pub const BASIC_NODES: u32 = 14;

pub const OCTET: u32 = 0;

pub const CHAR: u32 = 1;

pub const BOOLEAN: u32 = 2;

pub const SHORT: u32 = 3;

pub const UNSIGNED_SHORT: u32 = 4;

pub const LONG: u32 = 5;

pub const UNSIGNED_LONG: u32 = 6;

pub const LONG_LONG: u32 = 7;

pub const UNSIGNED_LONG_LONG: u32 = 8;
/// An unbounded string.
pub const STRING: u32 = 9;
/// An unbounded sequence of octets.
pub const OCTETS: u32 = 10;
/// A tag with its octets: a profile, a component, a service context.
pub const TAGGED: u32 = 11;
/// A sequence of those.
pub const TAGGED_LIST: u32 = 12;
/// An object reference: a repository id and profiles.
pub const OBJECT: u32 = 13;

fn integer(width: Width, signed: bool) -> Node
    ensures { result ≡ Integer width signed }
{
    Node::Integer { width, signed }
}

/// The basic types, in the order of their numbers (ISO/IEC 19500-2, CDR transfer syntax).
pub fn basic_nodes(alloc: Global) -> Result<Vec<Node>, AllocError>
    ensures { IfOk result (λ nodes. nodes.items ≡ the_basic_nodes) }
{
    let tagged = Members::new(vec![in alloc; UNSIGNED_LONG, OCTETS]?);
    let reference = Members::new(vec![in alloc; STRING, TAGGED_LIST]?);
    let nodes = vec![in alloc;
        Node::Octet,
        Node::Char,
        Node::Boolean,
        integer(Width::Two, true),
        integer(Width::Two, false),
        integer(Width::Four, true),
        integer(Width::Four, false),
        integer(Width::Eight, true),
        integer(Width::Eight, false),
        Node::Text { bound: 0 },
        Node::Seq {
            elem: OCTET,
            bound: 0
        },
        Node::Struct { members: tagged },
        Node::Seq {
            elem: TAGGED,
            bound: 0
        },
        Node::Struct { members: reference },
    ]?;
    Ok(nodes)
}
