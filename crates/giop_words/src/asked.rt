//! Requests of a direction that were told and whose replies weren't.

ghost use Rattle.std.specs.Prelude.{◌≡◌, [], OnOk, IfSome, IfNone};
ghost use Rattle.giop_words.specs.Requests.{IsAnswered, remembered, waits as waits_in};

use crate::names::Named;
use std::alloc::{AllocError, Global};

/// So many requests are remembered of a direction, for their replies.
const REMEMBERED: usize = 4096;

/// A request that was told, whose reply wasn't.
#[derive(Clone, Copy)]
pub(crate) struct Asked {
    pub(crate) id: u32,
    pub(crate) named: Named,
}

/// Those of a direction, in order.
#[derive(Drop)]
pub(crate) struct Requests {
    items: Vec<Asked>,
}

impl Requests {
    /// None. Takes no memory.
    pub(crate) fn new(alloc: Global) -> Requests
        ensures { result.items.items ≡ [] }
    {
        Requests {
            items: Vec::new(alloc),
        }
    }

    /// Remembers a request. Of too many the first is forgotten.
    pub(crate) fn remember(&mut self, asked: Asked) -> Result<(), AllocError>
        ensures { OnOk result (self.new.items.items ≡ remembered self.old.items.items asked) }
    {
        if self.items.len() >= REMEMBERED {
            let _ = self.items.remove(0);
        }
        match self.items.push(asked) {
            Ok(()) => Ok(()),
            Err(_) => Err(AllocError),
        }
    }

    /// Whether a request of the number waits for its reply.
    pub(crate) fn waits(&self, id: u32) -> bool
        ensures { result ≡ waits_in self.now.items.items id }
    {
        for asked in &self.items {
            if asked.id == id {
                return true;
            }
        }
        false
    }

    /// The first request of the number, which waits no more.
    pub(crate) fn answered(&mut self, id: u32) -> Option<Asked>
        ensures found { IfSome result (λ asked. IsAnswered id asked self.old.items.items self.new.items.items) }
        ensures none { IfNone result (self.new.items.items ≡ self.old.items.items) }
    {
        for place in 0..self.items.len() {
            if self.items[place].id == id {
                return Some(self.items.remove(place));
            }
        }
        None
    }
}
