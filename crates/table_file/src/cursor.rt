//! How far the octets of a table file are read.

ghost use Rattle.std.specs.Prelude.{◌≡◌, ◌<◌, List, ℕ, [], ◌∷◌, length, Option, Some, None, IfOk, IfSome, OnErr, is_some};
ghost use Rattle.table_file.specs.inner.Reading.{Takes};

use marshal_program::TableFault;
use std::alloc::Global;
use std::marker::Model;

/// The octets that are left. A contract sees them as long as each number that was read is one that
/// some table has.
#[derive(Drop)]
pub(crate) struct Cursor<'t> {
    alloc: Global,
    rest: &'t [u8],
    is_sound: bool,
}

impl<'t> Model for Cursor<'t> {
    ghost use Rattle.std.specs.Prelude.{ℕ, List, Option};
    ghost use Rattle.std.specs.Bool.{then_some};

    ghost Value = { Option (List ℕ) };

    ghost view = { λ c. then_some c.is_sound c.rest.now };
}

impl<'t> Cursor<'t> {
    pub(crate) fn new(alloc: Global, octets: &'t [u8]) -> Self
        ensures { result ≡ Some octets.now }
    {
        Cursor {
            alloc,
            rest: octets,
            is_sound: true,
        }
    }

    pub(crate) fn alloc(&self) -> Global {
        self.alloc
    }

    /// How many octets are left.
    pub(crate) fn len(&self) -> usize
        ensures { IfSome self.now (λ octets. result ≡ length octets) }
    {
        self.rest.len()
    }

    /// Whether each number that was read is one that some table has.
    pub(crate) fn is_sound(&self) -> bool
        ensures { result ≡ is_some self.now }
    {
        self.is_sound
    }

    /// A number was read that no table has.
    pub(crate) fn spoil(&mut self)
        ensures { self.new ≡ None }
    {
        self.is_sound = false;
    }

    /// Takes the next octet.
    pub(crate) fn octet(&mut self) -> Result<u8, TableFault>
        ensures taken { IfOk result (λ n. Takes 1 (n ∷ []) self.old self.new) }
        ensures short { OnErr result (IfSome self.old (λ octets. length octets < 1)) }
    {
        let Some((first, rest)) = self.rest.split_first() else {
            return Err(TableFault::NotATable);
        };
        self.rest = rest;
        Ok(*first)
    }

    /// Takes so many octets.
    pub(crate) fn take(&mut self, count: usize) -> Result<&'t [u8], TableFault>
        ensures taken { IfOk result (λ front. Takes count front.now self.old self.new) }
        ensures short { OnErr result (IfSome self.old (λ octets. length octets < count)) }
    {
        if self.rest.len() < count {
            return Err(TableFault::NotATable);
        }
        let (front, rest) = self.rest.split_at(count);
        self.rest = rest;
        Ok(front)
    }
}
