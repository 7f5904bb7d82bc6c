//! Strings: which are values of a node, and their octets.

ghost use Rattle.std.specs.Prelude.{◌≡◌, ◌++◌, ◌↔◌, ℕ, pos, List, length, IsTrue, OnOk, IfSome, IfNone};
ghost use Rattle.type_graph.specs.declared.width.Width.TheVariants.{Four};
ghost use Rattle.type_graph.specs.declared.width.Order.TheVariants.{Big};
ghost use Rattle.type_graph.specs.Words.{word};
ghost use Rattle.type_graph.specs.Value.{IsText};

use crate::numbers::{push_count, read_count};
use std::alloc::AllocError;

/// Whether octets are a string of a bound, 0 for none. With the terminating zero its length fits
/// its word, so it is one less than a sequence may be long.
pub fn is_text(bound: u32, text: &[u8]) -> bool
    ensures { IsTrue result ↔ IsText bound text.now }
{
    text.len() < 0xFFFF_FFFF
        && (bound == 0 || text.len() <= bound as usize)
        && text.iter().all(|octet| *octet != 0)
}

/// Puts the length of a string and its octets behind a tape.
pub fn push_text(tape: &mut Vec<u8>, text: &[u8]) -> Result<(), AllocError>
    ensures { OnOk result (tape.new.items ≡ tape.old.items ++ (word Big Four (pos (length text.now)) ++ text.now)) }
{
    push_count(tape, text.len())?;
    tape.extend_from_slice(text)
}

/// The string at the front, and the rest.
pub fn read_text(bound: u32, tape: &[u8]) -> Option<(&[u8], &[u8])>
    ensures found { IfSome result (λ r. IsText bound r.0.now
        × (tape.now ≡ (word Big Four (pos (length r.0.now)) ++ r.0.now) ++ r.1.now)) }
    ensures refused { IfNone result ((text rest : List ℕ) → IsText bound text
        → tape.now ≡ (word Big Four (pos (length text)) ++ text) ++ rest → ⊥) }
{
    let (count, octets) = read_count(tape)?;
    if octets.len() < count {
        return None;
    }
    let (text, rest) = octets.split_at(count);
    if !is_text(bound, text) {
        return None;
    }
    Some((text, rest))
}
