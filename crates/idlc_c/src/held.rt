//! What a handle holds: a table and names, which several handles may share.

ghost use Rattle.std.specs.Prelude.{◌≡◌, [], IfOk};
ghost use Rattle.std.specs.Arc.{arc_value};

use giop::Giop;
use position_checker::Accepted;
use program_runner::Room;
use std::alloc::{AllocError, Global};
use std::marker::Model;
use std::sync::Arc;
use type_model::part_names::PartNames;

/// A table that was accepted, and the names of the parts of its types, where these are known.
#[derive(Drop)]
pub struct Loaded {
    pub table: Accepted,
    pub names: PartNames,
}

impl Loaded {
    /// A table whose parts have no names. Takes no memory.
    pub fn nameless(alloc: Global, table: Accepted) -> Loaded
        ensures table { result.table ≡ table }
        ensures names { result.names ≡ [] }
    {
        Loaded {
            table,
            names: PartNames::new(alloc, Vec::new(alloc)),
        }
    }
}

/// What is loaded, and the types of GIOP beside it.
#[derive(Drop)]
pub struct Shared {
    pub loaded: Loaded,
    giop: Giop,
}

/// So much memory is kept at most from one call for the next: what the body of a message has at most.
const MOST_KEPT: usize = 1_048_576;

/// One owner of what is loaded, with memory for its next call. A contract sees what is loaded alone, since the types of
/// GIOP are always the same.
#[derive(Drop)]
pub struct Held {
    pub(crate) shared: Arc<Shared>,
    pub(crate) room: Room,
}

impl Model for Held {
    ghost use Rattle.std.specs.Arc.{arc_value};
    ghost use Rattle.idlc_c.specs.declared.held.Loaded.{Loaded};

    ghost Value = { Loaded };

    ghost view = { λ h. (arc_value h.shared).loaded };
}

impl Held {
    fn of(alloc: Global, shared: Arc<Shared>) -> Held
        ensures { result ≡ (arc_value shared).loaded }
    {
        let room = Room::new(alloc);
        Held { shared, room }
    }

    /// The first owner.
    fn first(alloc: Global, shared: Shared) -> Result<Held, AllocError>
        ensures { IfOk result (λ held. held ≡ shared.loaded) }
    {
        match Arc::new(alloc, shared) {
            Ok(shared) => Ok(Held::of(alloc, shared)),
            Err(_) => Err(AllocError),
        }
    }

    fn new(alloc: Global, loaded: Loaded) -> Result<Held, AllocError>
        ensures { IfOk result (λ held. held ≡ loaded) }
    {
        match Giop::new(alloc) {
            Ok(giop) => Held::first(alloc, Shared { loaded, giop }),
            Err(error) => Err(error),
        }
    }

    /// The same in a box.
    pub fn boxed(alloc: Global, loaded: Loaded) -> Result<Box<Held>, AllocError>
        ensures { IfOk result (λ held. held.value ≡ loaded) }
    {
        match Held::new(alloc, loaded) {
            Ok(held) => match Box::new(alloc, held) {
                Ok(held) => Ok(held),
                Err(_) => Err(AllocError),
            },
            Err(error) => Err(error),
        }
    }

    /// Keeps the memory for the next call, if it isn't much.
    pub fn trim_room(&mut self)
        ensures { self.new ≡ self.old }
    {
        self.room.trim(MOST_KEPT);
    }

    pub fn loaded(&self) -> &Loaded
        ensures { result.now ≡ self.now }
    {
        &self.shared.loaded
    }

    /// The types of GIOP.
    pub fn giop(&self) -> &Giop {
        &self.shared.giop
    }

    /// Another owner of the same, in a box.
    pub fn another(&self, alloc: Global) -> Result<Box<Held>, AllocError>
        ensures { IfOk result (λ held. held.value ≡ self.now) }
    {
        match Arc::try_clone(&self.shared) {
            Ok(shared) => match Box::new(alloc, Held::of(alloc, shared)) {
                Ok(held) => Ok(held),
                Err(_) => Err(AllocError),
            },
            Err(error) => Err(error),
        }
    }
}
