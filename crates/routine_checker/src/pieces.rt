//! Which nodes an instruction takes, and how many.

ghost use Rattle.std.specs.Prelude.{◌≡◌, ◌<◌, ◌==◌, ◌&&◌, ℕ, Bool, slice_get};
ghost use Rattle.std.specs.Ordering.{int_eq};
ghost use Rattle.routine_checker.specs.inner.Kinds.{is_of, part_holds};
ghost use Rattle.type_graph.specs.Value.{node_at};
ghost use Rattle.type_graph.specs.Words.{octets_in};
ghost use Rattle.routine_checker.specs.Taking.{is_octet, is_whole, is_boolean, is_enum, is_text, is_seq, only_part, is_one, is_routine_of, is_disc_of, are_arms_of, is_default_of, is_switch_of, is_piece, pieces};

use marshal_program::{Disc, Instr, Routine};
use type_graph::{Arms, Node, Width};

fn is_same_width(width: Width, wide: Width) -> bool
    ensures { result ≡ (octets_in width == octets_in wide) }
{
    width.octets() == wide.octets()
}

fn is_octet(node: &Node) -> bool
    ensures { result ≡ is_octet node.now }
{
    match node {
        Node::Octet | Node::Char => true,
        _ => false,
    }
}

fn is_whole(width: Width, node: &Node) -> bool
    ensures { result ≡ is_whole width node.now }
{
    match node {
        Node::Integer { width: wide, .. } => is_same_width(width, *wide),
        _ => false,
    }
}

fn is_boolean(node: &Node) -> bool
    ensures { result ≡ is_boolean node.now }
{
    match node {
        Node::Boolean => true,
        _ => false,
    }
}

fn is_enum(limit: u32, node: &Node) -> bool
    ensures { result ≡ is_enum limit node.now }
{
    match node {
        Node::Enum { n } => limit == *n,
        _ => false,
    }
}

fn is_text(bound: u32, node: &Node) -> bool
    ensures { result ≡ is_text bound node.now }
{
    match node {
        Node::Text { bound: limit } => bound == *limit,
        _ => false,
    }
}

/// A kind of node that a run has.
#[derive(Clone, Copy, Debug, PartialEq, Eq)]
pub enum RunKind {
    Octet,
    Boolean,
    Word(Width),
}

pub fn is_of(kind: RunKind, node: &Node) -> bool
    ensures { result ≡ is_of kind node.now }
{
    match kind {
        RunKind::Octet => is_octet(node),
        RunKind::Boolean => is_boolean(node),
        RunKind::Word(width) => is_whole(width, node),
    }
}

/// The same of the node of a number. What stands past the end of a graph counts as an octet.
pub fn is_of_at(nodes: &[Node], kind: RunKind, number: u32) -> bool
    ensures { result ≡ is_of kind (node_at nodes.now number) }
{
    match nodes.get(number as usize) {
        Some(node) => is_of(kind, node),
        None => match kind {
            RunKind::Octet => true,
            _ => false,
        },
    }
}

/// The only part of a node that has just one.
fn only_part(node: &Node) -> Option<u32>
    ensures { (holds : ℕ → Bool) → only_part holds node.now ≡ part_holds holds result }
{
    match node {
        Node::Array { elem, n: 1 } => Some(*elem),
        Node::Struct { members } => match members.as_slice() {
            [member] => Some(*member),
            _ => None,
        },
        _ => None,
    }
}

fn only_part_at(nodes: &[Node], number: u32) -> Option<u32>
    ensures { (holds : ℕ → Bool) → only_part holds (node_at nodes.now number) ≡ part_holds holds result }
{
    match nodes.get(number as usize) {
        Some(node) => only_part(node),
        None => None,
    }
}

/// Whether the node, or the only part of it, is of the kind.
fn is_one(nodes: &[Node], kind: RunKind, number: u32) -> bool
    ensures { result ≡ is_one 64 (is_of kind) nodes.now number }
{
    let mut at = number;
    for level in 0..64u32 {
        if is_of_at(nodes, kind, at) {
            return true;
        }
        match only_part_at(nodes, at) {
            Some(part) => at = part,
            None => return false,
        }
    }
    false
}

/// A sequence of the bound, whose elements are one of the kind each.
fn is_seq_of_kind(nodes: &[Node], bound: u32, kind: RunKind, node: &Node) -> bool
    ensures { result ≡ is_seq bound (is_one 64 (is_of kind) nodes.now) node.now }
{
    match node {
        Node::Seq { elem, bound: limit } => bound == *limit && is_one(nodes, kind, *elem),
        _ => false,
    }
}

/// Whether the routine is there, and is one of the node.
pub fn is_routine_of(program: &[Routine], routine: u32, number: u32) -> bool
    ensures { result ≡ is_routine_of program.now routine number }
{
    match program.get(routine as usize) {
        Some(routine) => routine.node == number,
        None => false,
    }
}

fn is_disc_of(disc: Disc, node: &Node) -> bool
    ensures { result ≡ is_disc_of disc node.now }
{
    match (disc, node) {
        (Disc::Char, Node::Char) | (Disc::Boolean, Node::Boolean) => true,
        (
            Disc::Word {
                width,
                signed: true,
            },
            Node::Integer {
                width: wide,
                signed: true,
            },
        )
        | (
            Disc::Word {
                width,
                signed: false,
            },
            Node::Integer {
                width: wide,
                signed: false,
            },
        ) => is_same_width(width, *wide),
        (Disc::Enum { n }, Node::Enum { n: limit }) => n == *limit,
        _ => false,
    }
}

fn is_disc_at(nodes: &[Node], disc: Disc, switch: u32) -> bool
    ensures { result ≡ is_disc_of disc (node_at nodes.now switch) }
{
    match nodes.get(switch as usize) {
        Some(node) => is_disc_of(disc, node),
        None => false,
    }
}

fn is_arm_of(program: &[Routine], arm: (i128, u32), member: (i128, u32)) -> bool
    ensures { result ≡ (int_eq arm.0 member.0 && is_routine_of program.now arm.1 member.1) }
{
    arm.0 == member.0 && is_routine_of(program, arm.1, member.1)
}

/// The same labels, each with a routine of the node beside it. There are at most 1,024 of a union.
fn are_arms_of(program: &[Routine], arms: &[(i128, u32)], members: &[(i128, u32)]) -> bool
    ensures { result ≡ are_arms_of program.now arms.now members.now }
{
    match (arms.split_first(), members.split_first()) {
        (None, None) => true,
        (Some((arm, more)), Some((member, rest))) => {
            is_arm_of(program, *arm, *member) && are_arms_of(program, more, rest)
        }
        _ => false,
    }
}

fn is_default_of(program: &[Routine], routine: Option<u32>, member: Option<u32>) -> bool
    ensures { result ≡ is_default_of program.now routine member }
{
    match (routine, member) {
        (None, None) => true,
        (Some(routine), Some(member)) => is_routine_of(program, routine, member),
        _ => false,
    }
}

/// A union of the discriminator and the labels, each with a routine of its member.
fn is_switch_of(
    nodes: &[Node],
    program: &[Routine],
    disc: Disc,
    arms: &Arms,
    otherwise: Option<u32>,
    node: &Node,
) -> bool
    ensures { result ≡ is_switch_of nodes.now program.now disc arms.now otherwise node.now }
{
    match node {
        Node::Union {
            switch,
            arms: members,
            default,
        } => is_disc_at(nodes, disc, *switch)
            && are_arms_of(program, arms.as_slice(), members.as_slice())
            && is_default_of(program, otherwise, *default),
        _ => false,
    }
}

/// The elements' routine is one of their node.
fn is_seq_of(program: &[Routine], bound: u32, routine: u32, node: &Node) -> bool
    ensures { result ≡ is_seq bound (is_routine_of program.now routine) node.now }
{
    match node {
        Node::Seq { elem, bound: limit } => {
            bound == *limit && is_routine_of(program, routine, *elem)
        }
        _ => false,
    }
}

fn is_piece_of(nodes: &[Node], program: &[Routine], instr: &Instr, number: u32, node: &Node) -> bool
    requires { node_at nodes.now number ≡ node.now }
    ensures { result ≡ is_piece nodes.now program.now instr.now number }
{
    match instr {
        Instr::Align { .. } => false,
        Instr::Octets { .. } => is_octet(node),
        Instr::Words { width, .. } => is_whole(*width, node),
        Instr::Bools { .. } => is_boolean(node),
        Instr::EnumWord { limit } => is_enum(*limit, node),
        Instr::Text { bound } => is_text(*bound, node),
        Instr::SeqOctets { bound } => is_seq_of_kind(nodes, *bound, RunKind::Octet, node),
        Instr::SeqBools { bound } => is_seq_of_kind(nodes, *bound, RunKind::Boolean, node),
        Instr::SeqWords { width, bound, .. } => {
            is_seq_of_kind(nodes, *bound, RunKind::Word(*width), node)
        }
        Instr::SeqOf { bound, routine, .. } => is_seq_of(program, *bound, *routine, node),
        Instr::Times { routine, .. } | Instr::Call { routine } => {
            is_routine_of(program, *routine, number)
        }
        Instr::Switch {
            disc,
            arms,
            otherwise,
        } => is_switch_of(nodes, program, *disc, arms, *otherwise, node),
    }
}

/// Whether the instruction does the work of the node, or a piece of its work.
pub fn is_piece(nodes: &[Node], program: &[Routine], instr: &Instr, number: u32) -> bool
    ensures { result ≡ is_piece nodes.now program.now instr.now number }
{
    match nodes.get(number as usize) {
        Some(node) => is_piece_of(nodes, program, instr, number, node),
        None => match instr {
            Instr::Octets { .. } => true,
            Instr::Times { routine, .. } | Instr::Call { routine } => {
                is_routine_of(program, *routine, number)
            }
            _ => false,
        },
    }
}

/// How many pieces the instruction takes.
pub fn pieces(instr: &Instr) -> u32
    ensures { result ≡ pieces instr.now }
{
    match instr {
        Instr::Align { .. } => 0,
        Instr::Octets { n }
        | Instr::Words { n, .. }
        | Instr::Bools { n }
        | Instr::Times { n, .. } => *n,
        _ => 1,
    }
}
