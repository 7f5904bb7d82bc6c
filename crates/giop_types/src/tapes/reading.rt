//! What stands at the front of a tape, and the rest behind it.

ghost use Rattle.std.specs.Prelude.{◌≡◌, ◌<◌, ◌^◌, ◌++◌, ℕ, pos, List, length, IfOk, IfErr, IfSome, IfNone};
ghost use Rattle.type_graph.specs.declared.width.Width.TheVariants.{One, Two, Four};
ghost use Rattle.type_graph.specs.declared.width.Order.TheVariants.{Big};
ghost use Rattle.type_graph.specs.Words.{word};
ghost use Rattle.giop_types.specs.TapeParts.{counted, IsCounted, tagged, IsTagged, tagged_list, AreFront, AreTagged, pair_of, pairs_of};
ghost use Rattle.giop_types.specs.TapeRefusal.{RefusesReading};

use crate::tapes::fault::TapeFault;
use std::alloc::Global;

/// A tag with its octets: a profile, a component, a service context.
#[derive(Clone, Copy)]
pub struct Tagged<'t> {
    pub tag: u32,
    pub octets: &'t [u8],
}

/// An octet, character or boolean.
pub fn split_u8(tape: &[u8]) -> Option<(u8, &[u8])>
    ensures found { IfSome result (λ r. (r.0 < 2 ^ 8) × (tape.now ≡ word Big One (pos r.0) ++ r.1.now)) }
    ensures refused { IfNone result ((n : ℕ) (rest : List ℕ) → tape.now ≡ word Big One (pos n) ++ rest → ⊥) }
{
    if tape.is_empty() {
        return None;
    }
    let (word, rest) = tape.split_at(1);
    Some((word[0], rest))
}

/// An unsigned short, or the pattern of a short.
pub fn split_u16(tape: &[u8]) -> Option<(u16, &[u8])>
    ensures found { IfSome result (λ r. (r.0 < 2 ^ 16) × (tape.now ≡ word Big Two (pos r.0) ++ r.1.now)) }
    ensures refused { IfNone result ((n : ℕ) (rest : List ℕ) → tape.now ≡ word Big Two (pos n) ++ rest → ⊥) }
{
    if tape.len() < 2 {
        return None;
    }
    let (word, rest) = tape.split_at(2);
    Some((u16::from_be_bytes([word[0], word[1]]), rest))
}

/// An unsigned long, an enumerator, a count or the length of a string.
pub fn split_u32(tape: &[u8]) -> Option<(u32, &[u8])>
    ensures found { IfSome result (λ r. (r.0 < 2 ^ 32) × (tape.now ≡ word Big Four (pos r.0) ++ r.1.now)) }
    ensures refused { IfNone result ((n : ℕ) (rest : List ℕ) → tape.now ≡ word Big Four (pos n) ++ rest → ⊥) }
{
    if tape.len() < 4 {
        return None;
    }
    let (word, rest) = tape.split_at(4);
    let n = u32::from_be_bytes([word[0], word[1], word[2], word[3]]);
    Some((n, rest))
}

/// The octets of a sequence of octets, or of a string.
pub fn split_octets(tape: &[u8]) -> Option<(&[u8], &[u8])>
    ensures found { IfSome result (λ r. IsCounted r.0.now × (tape.now ≡ counted r.0.now ++ r.1.now)) }
    ensures refused { IfNone result ((octets rest : List ℕ) → IsCounted octets
        → tape.now ≡ counted octets ++ rest → ⊥) }
{
    let (count, behind) = split_u32(tape)?;
    if behind.len() < count as usize {
        return None;
    }
    Some(behind.split_at(count as usize))
}

/// A tag with its octets.
pub fn split_tagged(tape: &[u8]) -> Option<(Tagged<'_>, &[u8])>
    ensures found { IfSome result (λ r. IsTagged (pair_of r.0) × (tape.now ≡ tagged (pair_of r.0) ++ r.1.now)) }
    ensures refused { IfNone result ((one : ℕ × List ℕ) (rest : List ℕ) → IsTagged one
        → tape.now ≡ tagged one ++ rest → ⊥) }
{
    let (tag, behind) = split_u32(tape)?;
    let (octets, rest) = split_octets(behind)?;
    Some((Tagged { tag, octets }, rest))
}

/// So many tags with their octets.
fn split_each(alloc: Global, count: u32, tape: &[u8]) -> Result<(Vec<Tagged<'_>>, &[u8]), TapeFault>
    ensures found { IfOk result (λ r. AreFront count tape.now (pairs_of r.0.items) r.1.now) }
    ensures refused { IfErr result (λ fault. RefusesReading fault ((all : List (ℕ × List ℕ)) (rest : List ℕ)
        → AreFront count tape.now all rest → ⊥)) }
{
    let mut all = Vec::new(alloc);
    let mut rest = tape;
    for _ in 0..count {
        let Some((one, more)) = split_tagged(rest) else {
            return Err(TapeFault::NotATape);
        };
        match all.push(one) {
            Ok(()) => rest = more,
            Err(_) => return Err(TapeFault::NoMemory),
        }
    }
    Ok((all, rest))
}

/// A sequence of tags with their octets.
///
/// # Errors
/// `NotATape` where none stands there. Want of memory.
pub fn split_tagged_list(alloc: Global, tape: &[u8]) -> Result<(Vec<Tagged<'_>>, &[u8]), TapeFault>
    ensures found { IfOk result (λ r. AreTagged (pairs_of r.0.items)
        × (tape.now ≡ tagged_list (pairs_of r.0.items) ++ r.1.now)) }
    ensures refused { IfErr result (λ fault. RefusesReading fault ((all : List (ℕ × List ℕ)) (rest : List ℕ)
        → AreTagged all → tape.now ≡ tagged_list all ++ rest → ⊥)) }
{
    let Some((count, behind)) = split_u32(tape) else {
        return Err(TapeFault::NotATape);
    };
    split_each(alloc, count, behind)
}
