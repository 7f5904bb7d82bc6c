//! Nodes of a graph.

ghost use Rattle.std.specs.Prelude.{◌≡◌};
ghost use Rattle.type_graph.specs.GraphRules.{members_in};

use crate::cursor::Cursor;
use crate::part::Part;
use crate::tail::Tail;
use marshal_program::TableFault;
use type_graph::{Arms, Members, Node, Width};

/// How many members a structure, a frame or a union has.
fn member_count(node: &Node) -> usize
    ensures { result ≡ members_in node.now }
{
    match node {
        Node::Struct { members } | Node::Frame { members } => members.as_slice().len(),
        Node::Union { arms, .. } => arms.as_slice().len(),
        _ => 0,
    }
}

impl Part for Node {
    ghost use Rattle.type_graph.specs.GraphRules.{members_in};
    ghost use Rattle.table_file.specs.Spelling.{spelled_node};
    ghost use Rattle.table_file.specs.inner.NodeCode.{node_code};
    ghost use Rattle.table_file.specs.inner.Ones.{one_node};

    ghost spelled = { spelled_node };

    ghost weight = { members_in };

    fn read(cursor: &mut Cursor<'_>) -> Result<Self, TableFault> {
        match cursor.octet()? {
            0 => {
                let (width, signed) = <(Width, bool)>::read(cursor)?;
                Ok(Node::Integer { width, signed })
            }
            1 => Ok(Node::Octet),
            2 => Ok(Node::Char),
            3 => Ok(Node::Boolean),
            4 => Ok(Node::Enum {
                n: u32::read(cursor)?,
            }),
            5 => Ok(Node::Text {
                bound: u32::read(cursor)?,
            }),
            6 => {
                let (elem, bound) = <(u32, u32)>::read(cursor)?;
                Ok(Node::Seq { elem, bound })
            }
            7 => {
                let (elem, n) = <(u32, u32)>::read(cursor)?;
                Ok(Node::Array { elem, n })
            }
            8 => Ok(Node::Struct {
                members: Members::read(cursor)?,
            }),
            9 => {
                let (switch, (arms, default)) = <(u32, (Arms, Option<u32>))>::read(cursor)?;
                Ok(Node::Union {
                    switch,
                    arms,
                    default,
                })
            }
            10 => Ok(Node::Frame {
                members: Members::read(cursor)?,
            }),
            _ => Err(TableFault::NotATable),
        }
    }

    fn skim(cursor: &mut Cursor<'_>) -> Result<usize, TableFault> {
        match Self::read(cursor) {
            Ok(node) => Ok(member_count(&node)),
            Err(fault) => Err(fault),
        }
    }

    fn write(&self, out: &mut Vec<u8>) -> Result<(), TableFault> {
        match self {
            Node::Integer { width, signed } => (0u8, (*width, *signed)).write(out),
            Node::Octet => 1u8.write(out),
            Node::Char => 2u8.write(out),
            Node::Boolean => 3u8.write(out),
            Node::Enum { n } => (4u8, *n).write(out),
            Node::Text { bound } => (5u8, *bound).write(out),
            Node::Seq { elem, bound } => (6u8, (*elem, *bound)).write(out),
            Node::Array { elem, n } => (7u8, (*elem, *n)).write(out),
            Node::Struct { members } => {
                8u8.write(out)?;
                members.write(out)
            }
            Node::Union {
                switch,
                arms,
                default,
            } => {
                9u8.write(out)?;
                switch.write(out)?;
                arms.write(out)?;
                default.write(out)
            }
            Node::Frame { members } => {
                10u8.write(out)?;
                members.write(out)
            }
        }
    }

    fn pass(tail: &mut Tail<'_>) -> bool {
        match tail.below(11) {
            Some(0) => <(Width, bool)>::pass(tail),
            Some(1) => true,
            Some(2) => true,
            Some(3) => true,
            Some(4) => u32::pass(tail),
            Some(5) => u32::pass(tail),
            Some(6) => <(u32, u32)>::pass(tail),
            Some(7) => <(u32, u32)>::pass(tail),
            Some(8) => Members::pass(tail),
            Some(9) => <(u32, (Arms, Option<u32>))>::pass(tail),
            Some(_) => Members::pass(tail),
            None => false,
        }
    }

    ghost is_code = { node_code };

    ghost has_one = { one_node };
}
