//! Numbers: which are values of a node, and their octets.

ghost use Rattle.std.specs.Prelude.{◌≡◌, ◌<◌, ◌^◌, ◌++◌, ◌↔◌, ℕ, ℤ, pos, List, length, IsTrue, OnOk, IfSome, IfNone};
ghost use Rattle.type_graph.specs.declared.node.Node.{Node};
ghost use Rattle.type_graph.specs.declared.width.Width.TheVariants.{Four};
ghost use Rattle.type_graph.specs.declared.width.Order.TheVariants.{Big};
ghost use Rattle.type_graph.specs.Words.{octets_in, words_of, plain_word, twos_complement, word};
ghost use Rattle.type_graph.specs.GraphRules.{IsNode};
ghost use Rattle.type_graph.specs.Value.{IsSigned, IsNumber, number_width, IsBelow, IsCount};

use std::alloc::AllocError;
use type_graph::{Node, Width};

/// Whether a sequence of a bound, 0 for none, may have so many elements.
pub fn is_count(bound: u32, count: usize) -> bool
    ensures { IsTrue result ↔ IsCount bound count }
{
    count <= 0xFFFF_FFFF && (bound == 0 || count <= bound as usize)
}

/// Puts a number of a node behind a tape: the lowest of its octets in two's complement, in big
/// order.
pub fn push_number(tape: &mut Vec<u8>, node: &Node, n: i128) -> Result<(), AllocError>
    ensures { OnOk result (IsNumber node.now n
        → tape.new.items ≡ tape.old.items ++ word Big (number_width node.now) n) }
{
    let octets = n.to_be_bytes();
    let width = node.number_width().octets();
    tape.extend_from_slice(octets.split_at(16 - width).1)
}

/// Puts a count, or the length of a string, behind a tape.
pub fn push_count(tape: &mut Vec<u8>, count: usize) -> Result<(), AllocError>
    ensures { OnOk result (tape.new.items ≡ tape.old.items ++ word Big Four (pos count)) }
{
    let octets = count.to_be_bytes();
    tape.extend_from_slice(octets.split_at(4).1)
}

/// The number of which these are the octets in big order.
fn number_of_word(width: Width, word: &[u8]) -> u64
    requires { length word.now ≡ octets_in width }
    ensures value { plain_word Big width result ≡ word.now }
    ensures small { result < words_of width }
{
    match width {
        Width::One => u64::from(word[0]),
        Width::Two => u64::from(u16::from_be_bytes([word[0], word[1]])),
        Width::Four => u64::from(u32::from_be_bytes([word[0], word[1], word[2], word[3]])),
        Width::Eight => u64::from_be_bytes([
            word[0], word[1], word[2], word[3], word[4], word[5], word[6], word[7],
        ]),
    }
}

/// The unsigned number at the front, and the rest.
fn read_word(width: Width, tape: &[u8]) -> Option<(u64, &[u8])>
    ensures found { IfSome result (λ r. (r.0 < words_of width) × (tape.now ≡ plain_word Big width r.0 ++ r.1.now)) }
    ensures refused { IfNone result (length tape.now < octets_in width) }
{
    let count = width.octets();
    if tape.len() < count {
        return None;
    }
    let (word, rest) = tape.split_at(count);
    Some((number_of_word(width, word), rest))
}

/// The number of a signed integer type of which this is the pattern.
#[tactic(auto, using(type_graph::proofs::WordLaws::complement_same))]
fn signed_of_word(width: Width, word: u64) -> i128
    requires { word < words_of width }
    ensures pattern { twos_complement (octets_in width) result ≡ word }
    ensures only { (n : ℤ) → IsSigned width n → twos_complement (octets_in width) n ≡ word → n ≡ result }
{
    width.signed_number(word)
}

/// The only number that can be a value of the node with this pattern.
fn number_of_pattern(node: &Node, word: u64) -> i128
    requires { word < words_of (number_width node.now) }
    ensures pattern { twos_complement (octets_in (number_width node.now)) result ≡ word }
    ensures only { (n : ℤ) → IsNumber node.now n
        → twos_complement (octets_in (number_width node.now)) n ≡ word → n ≡ result }
{
    match node {
        Node::Integer {
            width,
            signed: true,
        } => signed_of_word(*width, word),
        _ => i128::from(word),
    }
}

/// The number of a node at the front, and the rest.
pub fn read_number<'t>(node: &Node, tape: &'t [u8]) -> Option<(i128, &'t [u8])>
    ensures found { IfSome result (λ r. IsNumber node.now r.0
        × (tape.entry.now ≡ word Big (number_width node.now) r.0 ++ r.1.now)) }
    ensures refused { IfNone result ((graph : List Node) → IsNode graph node.now
        → (n : ℤ) (rest : List ℕ) → IsNumber node.now n → tape.entry.now ≡ word Big (number_width node.now) n ++ rest
        → ⊥) }
{
    let (word, rest) = read_word(node.number_width(), tape)?;
    let n = number_of_pattern(node, word);
    if !node.has_number(n) {
        return None;
    }
    Some((n, rest))
}

/// The count, or the length of a string, at the front, and the rest.
pub fn read_count(tape: &[u8]) -> Option<(usize, &[u8])>
    ensures found { IfSome result (λ r. (r.0 < 2 ^ 32) × (tape.now ≡ word Big Four (pos r.0) ++ r.1.now)) }
    ensures refused { IfNone result ((n : ℕ) (rest : List ℕ) → tape.now ≡ word Big Four (pos n) ++ rest → ⊥) }
{
    let (count, rest) = read_word(Width::Four, tape)?;
    Some((count as usize, rest))
}
