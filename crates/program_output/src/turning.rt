//! Words turned round, sixteen octets at a time.

ghost use Rattle.std.specs.Prelude.{◌≡◌, ◌<◌, ◌≤◌, ◌+◌, ◌*◌, ◌++◌, ℕ, length, take, drop};
ghost use Rattle.program_output.specs.Orders.{turned};

use std::simd::prelude::*;

/// So many octets are turned at once.
const TURNED: usize = 16;

/// In a long run that is done so many times before it is seen whether more is left.
const AT_ONCE: u32 = 4;

/// Words of a width, so many of which are sixteen octets.
pub trait Words {
    ghost width: { ℕ };

    ghost count: { ℕ };

    fn count() -> u32
        ensures value { result ≡ count }
        ensures few { count ≤ 16 }
        ensures whole { count * width ≡ 16 };

    fn width() -> usize
        ensures value { result ≡ width }
        ensures some { 0 < width };

    /// Each of them turned round.
    fn turn(lanes: u8x16) -> u8x16
        requires { length lanes ≡ 16 }
        ensures { result ≡ turned width count lanes };
}

pub struct Octets;

impl Words for Octets {
    ghost width = { 1 };

    ghost count = { 16 };

    fn count() -> u32 {
        16
    }

    fn width() -> usize {
        1
    }

    fn turn(lanes: u8x16) -> u8x16 {
        lanes
    }
}

pub struct Shorts;

impl Words for Shorts {
    ghost width = { 2 };

    ghost count = { 8 };

    fn count() -> u32 {
        8
    }

    fn width() -> usize {
        2
    }

    fn turn(lanes: u8x16) -> u8x16 {
        lanes.swizzle([1, 0, 3, 2, 5, 4, 7, 6, 9, 8, 11, 10, 13, 12, 15, 14])
    }
}

pub struct Longs;

impl Words for Longs {
    ghost width = { 4 };

    ghost count = { 4 };

    fn count() -> u32 {
        4
    }

    fn width() -> usize {
        4
    }

    fn turn(lanes: u8x16) -> u8x16 {
        lanes.swizzle([3, 2, 1, 0, 7, 6, 5, 4, 11, 10, 9, 8, 15, 14, 13, 12])
    }
}

pub struct LongLongs;

impl Words for LongLongs {
    ghost width = { 8 };

    ghost count = { 2 };

    fn count() -> u32 {
        2
    }

    fn width() -> usize {
        8
    }

    fn turn(lanes: u8x16) -> u8x16 {
        lanes.swizzle([7, 6, 5, 4, 3, 2, 1, 0, 15, 14, 13, 12, 11, 10, 9, 8])
    }
}

/// The last words, which fill no sixteen octets, each turned round.
fn turn_last<W: Words>(n: u32, words: &[u8], out: &mut [u8])
    requires few { n ≤ W.count }
    requires words { length words.now ≡ n * W.width }
    requires room { length out.old ≡ length words.now }
    ensures { out.new ≡ turned W.width n words.now }
{
    let _ = W::count();
    let len = words.len();
    let mut last = [0_u8; TURNED];
    last[..len].copy_from_slice(words);
    let turned = W::turn(u8x16::from_array(last)).to_array();
    out.copy_from_slice(&turned[..len]);
}

/// Turns so many times sixteen octets, which begin at a place.
#[inline(always)]
fn turn_chunks<W: Words>(chunks: u32, words: &[u8], out: &mut [u8], at: usize)
    requires there { at + chunks * 16 ≤ length words.now }
    requires room { length out.old ≡ length words.now }
    ensures long { length out.new ≡ length out.old }
    ensures put { take (at + chunks * 16) out.new
        ≡ take at out.old ++ turned W.width (chunks * W.count) (drop at words.now) }
{
    let _ = W::count();
    for chunk in 0..chunks {
        let place = at + chunk as usize * TURNED;
        W::turn(u8x16::from_slice(&words[place..])).copy_to_slice(&mut out[place..]);
    }
}

/// Puts the words, each turned round, in the place of as many octets.
fn turn_words<W: Words>(n: u32, words: &[u8], out: &mut [u8])
    requires words { length words.now ≡ n * W.width }
    requires room { length out.old ≡ length words.now }
    ensures { out.new ≡ turned W.width n words.now }
{
    let mut at = 0;
    let mut left = n;
    while left > AT_ONCE * W::count() {
        turn_chunks::<W>(AT_ONCE, words, out, at);
        at += AT_ONCE as usize * TURNED;
        left -= AT_ONCE * W::count();
    }
    while left > W::count() {
        turn_chunks::<W>(1, words, out, at);
        at += TURNED;
        left -= W::count();
    }
    turn_last::<W>(left, &words[at..], &mut out[at..]);
}

/// How many words come first, so that those behind them stand at a multiple of sixteen octets where memory begins at one.
fn first_words<W: Words>(at: usize, n: u32) -> u32
    ensures few { result ≤ W.count }
    ensures within { result ≤ n }
{
    let skipped = (at.wrapping_neg() % TURNED / W::width()) as u32;
    skipped.min(W::count()).min(n)
}

/// The same as `turn_words` where the octets begin so far behind the front of their memory: most of them are put at
/// multiples of sixteen octets, which takes two thirds of the time.
pub fn turn_words_at<W: Words>(at: usize, n: u32, words: &[u8], out: &mut [u8])
    requires words { length words.now ≡ n * W.width }
    requires room { length out.old ≡ length words.now }
    ensures { out.new ≡ turned W.width n words.now }
{
    let first = first_words::<W>(at, n);
    let (front, rest) = words.split_at(first as usize * W::width());
    let (head, behind) = out.split_at_mut(front.len());
    turn_last::<W>(first, front, head);
    turn_words::<W>(n - first, rest, behind);
}
