//! Tests of runs of octets, many octets at a time.

ghost use Rattle.std.specs.Prelude.{◌≡◌, ◌+◌, ◌≤◌, ◌==◌, ◌||◌, ℕ, Bool, length, nat_lt, take, drop};
ghost use Rattle.std.specs.List.{list_any};

use std::simd::prelude::*;

/// So many octets are looked at at once.
pub const LANES: usize = 32;

/// What is looked for in a run, in one octet or in many at once.
pub trait Sought {
    ghost is_sought: { ℕ → Bool };

    /// Whether an octet is looked for.
    fn is(octet: u8) -> bool
        ensures { result ≡ is_sought octet };

    /// Whether it is in the first `n` lanes.
    fn is_in_first(lanes: u8x32, n: usize) -> bool
        requires long { length lanes ≡ 32 }
        requires within { n ≤ 32 }
        ensures { result ≡ list_any is_sought (take n lanes) };

    /// Lanes that it is in where it is in one of the two.
    fn joined(lanes: u8x32, others: u8x32) -> u8x32
        requires as_long { length lanes ≡ length others }
        ensures long { length result ≡ length lanes }
        ensures either { list_any is_sought result ≡ (list_any is_sought lanes || list_any is_sought others) };
}

/// A zero.
pub struct Zero;

impl Sought for Zero {
    ghost is_sought = { λ octet. octet == 0 };

    fn is(octet: u8) -> bool {
        octet == 0
    }

    fn is_in_first(lanes: u8x32, n: usize) -> bool {
        lanes.simd_eq(u8x32::splat(0)).to_bitmask() % (1 << n) != 0
    }

    fn joined(lanes: u8x32, others: u8x32) -> u8x32 {
        lanes.simd_min(others)
    }
}

/// An octet that is neither 0 nor 1.
pub struct NoBoolean;

impl Sought for NoBoolean {
    ghost is_sought = { λ octet. nat_lt 1 octet };

    fn is(octet: u8) -> bool {
        octet > 1
    }

    fn is_in_first(lanes: u8x32, n: usize) -> bool {
        lanes.simd_gt(u8x32::splat(1)).to_bitmask() % (1 << n) != 0
    }

    fn joined(lanes: u8x32, others: u8x32) -> u8x32 {
        lanes.simd_max(others)
    }
}

/// Two chunks from a place on, joined.
fn joined_chunks<S: Sought>(octets: &[u8], at: usize) -> u8x32
    requires { at + 64 ≤ length octets.now }
    ensures long { length result ≡ 32 }
    ensures either { list_any S.is_sought result ≡ list_any S.is_sought (take 64 (drop at octets.now)) }
{
    let first = u8x32::from_slice(&octets[at..]);
    let second = u8x32::from_slice(&octets[at + LANES..]);
    S::joined(first, second)
}

/// Four chunks from a place on, joined.
fn joined_fours<S: Sought>(octets: &[u8], at: usize) -> u8x32
    requires { at + 128 ≤ length octets.now }
    ensures long { length result ≡ 32 }
    ensures either { list_any S.is_sought result ≡ list_any S.is_sought (take 128 (drop at octets.now)) }
{
    let first = joined_chunks::<S>(octets, at);
    let second = joined_chunks::<S>(octets, at + 2 * LANES);
    S::joined(first, second)
}

/// Whether one of the octets is sought of eight chunks, which begin at a place.
fn is_in_eight_chunks<S: Sought>(octets: &[u8], at: usize) -> bool
    requires { at + 256 ≤ length octets.now }
    ensures { result ≡ list_any S.is_sought (take 256 (drop at octets.now)) }
{
    let first = joined_fours::<S>(octets, at);
    let second = joined_fours::<S>(octets, at + 4 * LANES);
    S::is_in_first(S::joined(first, second), LANES)
}

/// Whether one of the octets is sought of a chunk, which begins at a place.
fn is_in_chunk<S: Sought>(octets: &[u8], at: usize) -> bool
    requires { at + 32 ≤ length octets.now }
    ensures { result ≡ list_any S.is_sought (take 32 (drop at octets.now)) }
{
    S::is_in_first(u8x32::from_slice(&octets[at..]), LANES)
}

/// Whether one of the first `n` octets of the first chunk is sought.
pub fn is_in_first_chunk<S: Sought>(octets: &[u8], n: usize) -> bool
    requires chunk { 32 ≤ length octets.now }
    requires within { n ≤ 32 }
    ensures { result ≡ list_any S.is_sought (take n octets.now) }
{
    S::is_in_first(u8x32::from_slice(octets), n)
}

/// Whether one of a few octets is sought.
fn is_in_rest<S: Sought>(octets: &[u8]) -> bool
    ensures { result ≡ list_any S.is_sought octets.now }
{
    octets.iter().any(|octet| S::is(*octet))
}

/// Whether one of the octets is sought: chunk by chunk, and then those that fill none.
#[tactic(auto, using(crate::proofs::Chunks::behind_chunk))]
fn is_in_chunks<S: Sought>(octets: &[u8]) -> bool
    ensures { result ≡ list_any S.is_sought octets.now }
{
    let mut at = 0;
    while octets.len() - at >= LANES {
        if is_in_chunk::<S>(octets, at) {
            return true;
        }
        at += LANES;
    }
    is_in_rest::<S>(&octets[at..])
}

/// Whether one of the octets is sought: eight chunks at a time, and then those that fill no eight.
#[tactic(auto, using(crate::proofs::Chunks::behind_chunk))]
pub fn has<S: Sought>(octets: &[u8]) -> bool
    ensures { result ≡ list_any S.is_sought octets.now }
{
    let mut at = 0;
    while octets.len() - at >= 8 * LANES {
        if is_in_eight_chunks::<S>(octets, at) {
            return true;
        }
        at += 8 * LANES;
    }
    is_in_chunks::<S>(&octets[at..])
}
