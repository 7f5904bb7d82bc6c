//! How far the octets of a table file are passed.

ghost use Rattle.std.specs.Prelude.{◌≡◌, ◌↔◌, ◌≤◌, ◌<◌, IsTrue, [], Some, IfNone, IfSome, Contains, drop, length};
ghost use Rattle.std.specs.Fmt.{◌++?◌};
ghost use Rattle.type_graph.specs.Words.{AllBelow};
ghost use Rattle.table_file.specs.Octets.{spelled_word};
ghost use Rattle.table_file.specs.inner.Passing.{PassesOne};

use crate::numbers::word_at;
use std::marker::Model;

/// The octets that aren't passed yet.
#[derive(Drop)]
pub(crate) struct Tail<'t> {
    rest: &'t [u8],
}

impl<'t> Model for Tail<'t> {
    ghost use Rattle.std.specs.Prelude.{ℕ, List};
    ghost use Rattle.type_graph.specs.Words.{AllBelow};

    ghost Value = { List ℕ };

    ghost view = { λ tail. tail.rest.now };

    ghost invariant = { λ tail. AllBelow 256 tail.rest.now };
}

impl<'t> Tail<'t> {
    pub(crate) fn new(octets: &'t [u8]) -> Self
        ensures { result ≡ octets.now }
    {
        Tail { rest: octets }
    }

    pub(crate) fn len(&self) -> usize
        ensures { result ≡ length self.now }
    {
        self.rest.len()
    }

    /// Passes so many octets, whatever they are: all that are left where these are fewer.
    pub(crate) fn skip(&mut self, count: usize) -> bool
        ensures octets { AllBelow 256 self.old }
        ensures there { IsTrue result ↔ count ≤ length self.old }
        ensures behind { self.new ≡ drop count self.old }
    {
        let is_there = count <= self.rest.len();
        let (_, behind) = self.rest.split_at(count.min(self.rest.len()));
        self.rest = behind;
        is_there
    }

    /// Passes four octets, and tells the number that they are: all that are left where these are
    /// fewer.
    pub(crate) fn word(&mut self) -> Option<u32>
        ensures octets { AllBelow 256 self.old }
        ensures passed { IfSome result (λ n. spelled_word n ++? Some self.new ≡ Some self.old) }
        ensures short { IfNone result (length self.old < 4) }
        ensures none { IfNone result (self.new ≡ []) }
    {
        let octets = self.rest;
        if !self.skip(4) {
            return None;
        }
        Some(word_at(octets.split_at(4).0))
    }

    /// Passes an octet below the limit.
    pub(crate) fn below(&mut self, limit: u8) -> Option<u8>
        ensures { PassesOne (λ n. n < limit) result self.old self.new }
    {
        match self.rest.split_first() {
            Some((octet, behind)) if *octet < limit => {
                self.rest = behind;
                Some(*octet)
            }
            _ => None,
        }
    }

    /// Passes one of these octets.
    pub(crate) fn one_of(&mut self, octets: &[u8]) -> Option<u8>
        ensures { PassesOne (λ n. Contains octets.now n) result self.old self.new }
    {
        match self.rest.split_first() {
            Some((octet, behind)) if octets.contains(octet) => {
                self.rest = behind;
                Some(*octet)
            }
            _ => None,
        }
    }
}
