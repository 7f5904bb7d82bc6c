//! Walks over lists of one part or more.

use crate::names::Listed;

/// The parts of a list that are left, in order.
#[derive(Drop)]
pub struct Parts<'a, T> {
    first: Option<&'a T>,
    rest: &'a [T],
}

impl<T> Listed<T> {
    ghost use Rattle.std.specs.Prelude.{◌≡◌, length};
    ghost use Rattle.idl_tree.specs.Lists.{parts};
    ghost use Rattle.idl_tree.specs.PartsLeft.{parts_left};

    /// How many parts there are.
    pub fn len(&self) -> usize
        ensures { result ≡ length (parts self.now) }
    {
        1 + self.rest.len()
    }

    /// The parts in order.
    pub fn iter(&self) -> Parts<'_, T>
        ensures { parts_left result ≡ parts self.now }
    {
        Parts {
            first: Some(&self.first),
            rest: self.rest.as_slice(),
        }
    }
}

impl<'a, T> Iterator for Parts<'a, T> {
    ghost use Rattle.std.specs.Iterator.{YieldsFirstRef, item_count};
    ghost use Rattle.idl_tree.specs.PartsLeft.{parts_left};

    type Item = &'a T;

    ghost next_gives = { YieldsFirstRef parts_left };

    ghost remaining = { item_count parts_left };

    fn next(&mut self) -> Option<&'a T> {
        match self.first.take() {
            Some(first) => Some(first),
            None => {
                let (first, rest) = self.rest.split_first()?;
                self.rest = rest;
                Some(first)
            }
        }
    }
}
