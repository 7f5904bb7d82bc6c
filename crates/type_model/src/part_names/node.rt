//! The names of one node's parts.

ghost use Rattle.std.specs.Prelude.{◌≡◌, ◌≤◌, ◌↔◌, [], length, slice_get, IfSome, IfNone, IsTrue, Some};
ghost use Rattle.type_model.specs.PartNamesNames.{AreApart};

use crate::Name;
use std::alloc::Global;
use std::marker::Model;

/// Names in order, of which no two are equal but for the case of their letters.
#[derive(Drop)]
pub struct NodeNames {
    names: Vec<Name>,
}

impl Model for NodeNames {
    ghost use Rattle.std.specs.Prelude.{ℕ, List};
    ghost use Rattle.type_model.specs.PartNamesNames.{AreApart};

    ghost Value = { List (List ℕ) };

    ghost view = { λ n. n.names.items };

    ghost invariant = { λ n. AreApart n.names.items };
}

impl NodeNames {
    /// No names. Takes no memory.
    pub fn none(alloc: Global) -> NodeNames
        ensures { result ≡ [] }
    {
        NodeNames {
            names: Vec::new(alloc),
        }
    }

    /// These names. Takes no memory.
    pub fn new(names: Vec<Name>) -> NodeNames
        requires { AreApart names.items }
        ensures { result ≡ names.items }
    {
        NodeNames { names }
    }

    /// How many there are. No two are equal but for case.
    pub fn len(&self) -> usize
        ensures count { result ≡ length self.now }
        ensures apart { AreApart self.now }
    {
        self.names.len()
    }

    pub fn is_empty(&self) -> bool
        ensures { IsTrue result ↔ (self.now ≡ []) }
    {
        self.names.is_empty()
    }

    /// The name of the part at a place.
    pub fn get(&self, place: usize) -> Option<&str>
        ensures some { IfSome result (λ name. slice_get self.now place ≡ Some name.now) }
        ensures none { IfNone result (length self.now ≤ place) }
    {
        match self.names.get(place) {
            Some(name) => Some(name.as_str()),
            None => None,
        }
    }
}
