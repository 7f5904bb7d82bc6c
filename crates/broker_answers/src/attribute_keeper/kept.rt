//! The tapes of the attributes of an object.

ghost use Rattle.std.specs.Prelude.{◌≡◌, [], slice_index_or, slice_set};

use std::marker::Model;
use type_graph::Items;

/// The tapes of an object's attributes. A contract sees the list.
#[derive(Drop)]
pub(crate) struct Kept {
    tapes: Vec<Items<u8>>,
}

impl Model for Kept {
    ghost use Rattle.std.specs.Prelude.{ℕ, List};

    ghost Value = { List (List ℕ) };

    ghost view = { λ k. k.tapes.items };
}

impl Kept {
    pub(crate) fn new(tapes: Vec<Items<u8>>) -> Kept
        ensures { result ≡ tapes.items }
    {
        Kept { tapes }
    }

    /// The tape of an attribute; an empty one where there is none.
    pub(crate) fn tape(&self, attribute: usize) -> &[u8]
        ensures { result.now ≡ slice_index_or self.now attribute [] }
    {
        match self.tapes.get(attribute) {
            Some(tape) => tape.as_slice(),
            None => &[],
        }
    }

    /// Gives an attribute another tape, where it is there.
    pub(crate) fn set(&mut self, attribute: usize, tape: Vec<u8>)
        ensures { self.new ≡ slice_set self.old attribute tape.items }
    {
        if attribute < self.tapes.len() {
            self.tapes[attribute] = Items::new(tape);
        }
    }
}
