//! A run of numbers on its way from an input to an output.

ghost use Rattle.std.specs.Prelude.{◌≡◌, ◌<◌, ◌*◌, ◌^◌, ◌++◌, [], length, OnErr, OnOk};
ghost use Rattle.type_graph.specs.Words.{octets_in};
ghost use Rattle.program_output.specs.Orders.{in_order};

use crate::turning::{LongLongs, Longs, Octets, Shorts, turn_words_at};
use std::alloc::AllocError;
use std::marker::Model;
use type_graph::{Order, Width};

/// Numbers of a width, to be put between big order and another. A contract sees the octets that they become.
#[derive(Drop)]
pub struct Waiting<'a> {
    order: Order,
    width: Width,
    n: u32,
    words: &'a [u8],
}

impl<'a> Model for Waiting<'a> {
    ghost use Rattle.std.specs.Prelude.{◌≡◌, ◌*◌, ℕ, List, length};
    ghost use Rattle.type_graph.specs.Words.{octets_in};
    ghost use Rattle.program_output.specs.Orders.{in_order};

    ghost Value = { List ℕ };

    ghost view = { λ w. in_order w.order (octets_in w.width) w.n w.words.now };

    ghost invariant = { λ w. length w.words.now ≡ w.n * octets_in w.width };
}

impl<'a> Waiting<'a> {
    /// No numbers.
    pub fn none() -> Self
        ensures { result ≡ [] }
    {
        Waiting {
            order: Order::Big,
            width: Width::One,
            n: 0,
            words: &[],
        }
    }

    /// So many numbers of a width.
    pub fn of(order: Order, width: Width, n: u32, words: &'a [u8]) -> Self
        requires { length words.now ≡ n * octets_in width }
        ensures { result ≡ in_order order (octets_in width) n words.entry.now }
    {
        Waiting {
            order,
            width,
            n,
            words,
        }
    }

    /// How many octets they are.
    #[inline(always)]
    pub fn len(&self) -> usize
        ensures value { result ≡ length self.now }
        ensures small { result < 2 ^ 63 }
    {
        self.words.len()
    }

    /// Puts them in the place of as many octets, which begin so far behind the front of their memory.
    pub fn put(&self, at: usize, out: &mut [u8])
        requires { length out.old ≡ length self.now }
        ensures { out.new ≡ self.now }
    {
        let n = self.n;
        match (self.order, self.width) {
            (Order::Big, _) => out.copy_from_slice(self.words),
            (Order::Little, Width::One) => turn_words_at::<Octets>(at, n, self.words, out),
            (Order::Little, Width::Two) => turn_words_at::<Shorts>(at, n, self.words, out),
            (Order::Little, Width::Four) => turn_words_at::<Longs>(at, n, self.words, out),
            (Order::Little, Width::Eight) => turn_words_at::<LongLongs>(at, n, self.words, out),
        }
    }

    /// Puts them behind others.
    #[inline(never)]
    pub fn push_to(&self, octets: &mut Vec<u8>) -> Result<(), AllocError>
        ensures pushed { OnOk result (octets.new.items ≡ octets.old.items ++ self.now) }
        ensures kept { OnErr result (octets.new.items ≡ octets.old.items) }
    {
        if self.order == Order::Big {
            return octets.extend_from_slice(self.words);
        }
        let end = octets.len();
        octets.resize(end + self.words.len(), 0)?;
        self.put(end, octets.slice_mut(end..));
        Ok(())
    }
}
