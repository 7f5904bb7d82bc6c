//! An output: octets that grow at their end.

ghost use Rattle.std.specs.Prelude.{◌≡◌, ◌<◌, ◌≤◌, ◌+◌, ◌*◌, ◌^◌, ◌++◌, ◌∷◌, [], ℕ, List, true, false, length, take, replicate, IfOk, OnErr, OnOk};
ghost use Rattle.type_graph.specs.declared.width.Width.TheVariants.{Four};
ghost use Rattle.type_graph.specs.Words.{octets_in, plain_word};
ghost use Rattle.program_output.specs.Buffers.{put_front};
ghost use Rattle.program_output.specs.Orders.{in_order};

use crate::lanes::LANES;
use crate::waiting::Waiting;
use crate::words::long_octets;
use arrayvec::ArrayVec;
use std::alloc::AllocError;
use std::marker::Model;
use std::simd::Simd;
use type_graph::{Order, Width};

/// How many octets there is room for at least once there are any, so that a small value asks for memory once.
const FIRST_ROOM: usize = 64;

/// So much room is made at most at a time.
const BLOCK: usize = 1024;

/// A run of so many octets is put behind the end only when something comes behind it, or at last.
const LONG: usize = 1024;

static ZEROS: [u8; BLOCK] = [0; BLOCK];

/// Behind the end lies room, in zeros or what was written there before: what is put there needs no more than a copy.
/// There is none while a long run waits.
#[derive(Drop)]
pub struct Output<'a> {
    /// The octets up to the end, and the room behind it.
    pub octets: Vec<u8>,
    /// Where the octets end, but for those that wait.
    pub end: usize,
    /// The long run that waits.
    pub waiting: Waiting<'a>,
}

impl<'a> Model for Output<'a> {
    ghost use Rattle.std.specs.Prelude.{◌<◌, ◌≤◌, ◌++◌, ℕ, List, length, take};

    ghost Value = { List ℕ };

    ghost view = { λ o. take o.end o.octets.items ++ o.waiting };

    ghost invariant = { λ o. (o.end ≤ length o.octets.items)
        × (0 < length o.waiting → length o.octets.items ≤ o.end) };
}

/// Asks for memory for so many octets more, the first time for just as much as is said.
#[inline(never)]
fn ask_for(octets: &mut Vec<u8>, n: usize) -> Result<(), AllocError>
    ensures { octets.new.items ≡ octets.old.items }
{
    if octets.capacity() == 0 {
        return octets.reserve_exact(n.max(FIRST_ROOM));
    }
    octets.reserve(n)
}

/// Makes room behind the end, the more the longer the output is, but no more than there is memory for already.
#[cold]
#[inline(never)]
fn make_room(octets: &mut Vec<u8>, end: usize) -> Result<(), AllocError>
    requires { end ≤ length octets.old.items }
    ensures same { take end octets.new.items ≡ take end octets.old.items }
    ensures within { end ≤ length octets.new.items }
    ensures room { OnOk result (end + 32 ≤ length octets.new.items) }
{
    if octets.is_empty() {
        octets.reserve_exact(FIRST_ROOM)?;
        return octets.extend_from_slice(&[0; FIRST_ROOM]);
    }
    let spare = octets.capacity() - octets.len();
    let wanted = if spare >= LANES {
        spare
    } else {
        end.max(FIRST_ROOM)
    };
    octets.extend_from_slice(&ZEROS[..wanted.min(BLOCK)])
}

/// A run behind the end in place of the room there.
fn append(octets: &mut Vec<u8>, end: usize, run: &[u8]) -> Result<(), AllocError>
    requires { end ≤ length octets.old.items }
    ensures within { end ≤ length octets.new.items }
    ensures items { OnOk result (octets.new.items ≡ take end octets.old.items ++ run.now) }
{
    octets.truncate(end);
    ask_for(octets, run.len())?;
    octets.extend_from_slice(run)
}

/// Puts what waits behind the end.
#[inline(always)]
fn settle(
    octets: &mut Vec<u8>,
    end: &mut usize,
    waiting: &mut Waiting<'_>,
) -> Result<(), AllocError>
    requires { end.old ≤ length octets.old.items }
    ensures same { take end.new octets.new.items ++ waiting.new ≡ take end.old octets.old.items ++ waiting.old }
    ensures within { end.new ≤ length octets.new.items }
    ensures none { OnOk result (waiting.new ≡ []) }
    ensures left { OnErr result (length octets.new.items ≤ end.new) }
{
    if waiting.len() == 0 {
        return Ok(());
    }
    octets.truncate(*end);
    ask_for(octets, waiting.len())?;
    waiting.push_to(octets)?;
    *end = octets.len();
    *waiting = Waiting::none();
    Ok(())
}

/// Puts what waits behind the end, and makes room there.
#[cold]
#[inline(never)]
fn widen(octets: &mut Vec<u8>, end: &mut usize, waiting: &mut Waiting<'_>) -> Result<(), AllocError>
    requires { end.old ≤ length octets.old.items }
    ensures same { take end.new octets.new.items ++ waiting.new ≡ take end.old octets.old.items ++ waiting.old }
    ensures within { end.new ≤ length octets.new.items }
    ensures room { OnOk result (end.new + 32 ≤ length octets.new.items) }
    ensures none { OnOk result (waiting.new ≡ []) }
    ensures left { OnErr result (0 < length waiting.new → length octets.new.items ≤ end.new) }
{
    settle(octets, end, waiting)?;
    make_room(octets, *end)
}

/// Sees that there is room for a few octets.
#[inline(always)]
fn ready(
    octets: &mut Vec<u8>,
    end: &mut usize,
    waiting: &mut Waiting<'_>,
    n: usize,
) -> Result<(), AllocError>
    requires some { 0 < n }
    requires few { n ≤ 32 }
    requires there { end.old ≤ length octets.old.items }
    requires waits { 0 < length waiting.old → length octets.old.items ≤ end.old }
    ensures same { take end.new octets.new.items ++ waiting.new ≡ take end.old octets.old.items ++ waiting.old }
    ensures within { end.new ≤ length octets.new.items }
    ensures room { OnOk result (end.new + n ≤ length octets.new.items) }
    ensures none { OnOk result (waiting.new ≡ []) }
    ensures left { OnErr result (0 < length waiting.new → length octets.new.items ≤ end.new) }
{
    if octets.len() - *end < n {
        return widen(octets, end, waiting);
    }
    Ok(())
}

/// So many octets from a place on, up to `N` of which may be meant.
#[inline(always)]
pub fn put<const N: usize>(room: &mut [u8], at: usize, octets: &[u8])
    requires room { at + N ≤ length room.old }
    requires there { N ≤ length octets.now }
    ensures as_long { length room.new ≡ length room.old }
    ensures behind { (n : ℕ) → n ≤ N → take (at + n) room.new ≡ take at room.old ++ take n octets.now }
{
    Simd::<u8, N>::from_slice(octets).copy_to_slice(&mut room[at..]);
}

/// An unsigned long from a place on, and octets behind it, up to 32 of which may be meant.
#[inline(always)]
pub fn put_counted(room: &mut [u8], at: usize, word: [u8; 4], octets: &[u8])
    requires room { at + 36 ≤ length room.old }
    requires there { 32 ≤ length octets.now }
    ensures as_long { length room.new ≡ length room.old }
    ensures behind { (n : ℕ) → n ≤ 32 → take (at + 4 + n) room.new ≡ (take at room.old ++ word) ++ take n octets.now }
{
    put::<4>(room, at, &word);
    put::<LANES>(room, at + 4, octets);
}

/// The same with so many octets and a zero behind them.
#[inline(always)]
pub fn put_ended(room: &mut [u8], at: usize, word: [u8; 4], octets: &[u8], n: usize)
    requires room { at + 37 ≤ length room.old }
    requires there { 32 ≤ length octets.now }
    requires few { n ≤ 32 }
    ensures as_long { length room.new ≡ length room.old }
    ensures behind { take (at + n + 5) room.new ≡ ((take at room.old ++ word) ++ take n octets.now) ++ 0 ∷ [] }
{
    put_counted(room, at, word, octets);
    put::<1>(room, at + 4 + n, &[0]);
}

impl<'a> Output<'a> {
    /// One that has this memory to begin with.
    pub fn over(room: Vec<u8>) -> Self
        ensures { result ≡ [] }
    {
        Output {
            octets: room,
            end: 0,
            waiting: Waiting::none(),
        }
    }

    /// How many octets there are.
    #[inline(always)]
    pub fn len(&self) -> usize
        ensures { result ≡ length self.now }
    {
        self.end + self.waiting.len()
    }

    /// All the octets.
    pub fn into_octets(self) -> Result<Vec<u8>, AllocError>
        ensures { IfOk result (λ octets. octets.items ≡ self.entry) }
    {
        let Output {
            mut octets,
            mut end,
            mut waiting,
        } = self;
        settle(&mut octets, &mut end, &mut waiting)?;
        octets.truncate(end);
        Ok(octets)
    }

    /// Puts the octets at the front of a buffer, if there is room for all of them: how many they are.
    #[inline(always)]
    pub fn put_into(&self, buffer: &mut [u8]) -> usize
        ensures put { buffer.new ≡ put_front self.now buffer.old }
        ensures long { result ≡ length self.now }
    {
        let len = self.len();
        if len <= buffer.len() {
            let (front, behind) = buffer.split_at_mut(self.end);
            front.copy_from_slice(&self.octets.as_slice()[..self.end]);
            if self.waiting.len() > 0 {
                let (last, _) = behind.split_at_mut(self.waiting.len());
                self.waiting.put(self.end, last);
            }
        }
        len
    }

    /// Makes more room behind the end, if nothing waits and memory isn't refused.
    #[cold]
    #[inline(never)]
    pub fn widen(&mut self)
        ensures { self.new ≡ self.old }
    {
        if self.waiting.len() == 0 {
            let _ = widen(&mut self.octets, &mut self.end, &mut self.waiting);
        }
    }

    /// Asks for memory for so many octets more.
    #[inline(always)]
    pub fn reserve(&mut self, n: usize) -> Result<(), AllocError>
        ensures { self.new ≡ self.old }
    {
        if self.octets.capacity() - self.end < n {
            ask_for(&mut self.octets, n)?;
        }
        Ok(())
    }

    /// Asks for memory for a run of so many octets, and some more, if it doesn't wait.
    pub fn reserve_run(&mut self, n: usize, more: usize) -> Result<(), AllocError>
        requires { n + more < 2 ^ 64 }
        ensures { self.new ≡ self.old }
    {
        if n >= LONG {
            return self.reserve(more);
        }
        self.reserve(n + more)
    }

    /// Up to `N` octets of a front at the end: `N` are written, by no call.
    #[inline(always)]
    pub fn push_few<const N: usize>(&mut self, octets: &[u8], n: usize) -> Result<(), AllocError>
        requires some { 0 < N }
        requires few { n ≤ N }
        requires no_more { N ≤ 32 }
        requires there { N ≤ length octets.now }
        ensures { OnOk result (self.new ≡ self.old ++ take n octets.now) }
    {
        ready(&mut self.octets, &mut self.end, &mut self.waiting, N)?;
        put::<N>(self.octets.as_mut_slice(), self.end, octets);
        self.end += n;
        Ok(())
    }

    /// A run of octets at the end. One that is longer than the room goes past it.
    #[inline(never)]
    pub fn push_many(&mut self, octets: &[u8]) -> Result<(), AllocError>
        ensures { OnOk result (self.new ≡ self.old ++ octets.now) }
    {
        let n = octets.len();
        if self.octets.len() - self.end <= n {
            settle(&mut self.octets, &mut self.end, &mut self.waiting)?;
            append(&mut self.octets, self.end, octets)?;
        } else {
            self.octets
                .slice_mut(self.end..self.end + n)
                .copy_from_slice(octets);
        }
        self.end += n;
        Ok(())
    }

    /// Zeros at the end, fewer than 8. None wants no room.
    #[inline(always)]
    #[tactic(auto, using(crate::proofs::Ends::zeros_meant))]
    pub fn push_zeros(&mut self, n: usize) -> Result<(), AllocError>
        requires { n < 8 }
        ensures { OnOk result (self.new ≡ self.old ++ replicate n 0) }
    {
        if self.octets.len() - self.end < 8 && n == 0 {
            return Ok(());
        }
        let zeros: ArrayVec<u8, 8> = ArrayVec::from([0; 8]);
        self.push_few::<8>(zeros.as_slice(), n)
    }

    /// An unsigned long at the end.
    #[inline(always)]
    pub fn push_number(&mut self, order: Order, n: u32) -> Result<(), AllocError>
        ensures { OnOk result (self.new ≡ self.old ++ plain_word order Four n) }
    {
        self.push_few::<4>(&long_octets(order, n), 4)
    }

    /// A run of numbers of the width at the end, between big order and another. A long one waits.
    #[inline(never)]
    pub fn push_words(
        &mut self,
        order: Order,
        width: Width,
        n: u32,
        words: &'a [u8],
    ) -> Result<(), AllocError>
        requires { length words.now ≡ n * octets_in width }
        ensures { OnOk result (self.new ≡ self.old ++ in_order order (octets_in width) n words.entry.now) }
    {
        if words.len() < LONG && order == Order::Big {
            return self.push_many(words);
        }
        settle(&mut self.octets, &mut self.end, &mut self.waiting)?;
        self.octets.truncate(self.end);
        self.waiting = Waiting::of(order, width, n, words);
        if words.len() < LONG {
            settle(&mut self.octets, &mut self.end, &mut self.waiting)?;
        }
        Ok(())
    }
}
