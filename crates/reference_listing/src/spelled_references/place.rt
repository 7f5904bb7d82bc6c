//! References to objects of places.

ghost use Rattle.std.specs.Prelude.{◌≡◌, ◌∷◌, [], IfOk, IfErr};
ghost use Rattle.std.specs.Bool.{OnFalse};
ghost use Rattle.reference_texts.specs.References.{Reference, reference_of};
ghost use Rattle.reference_texts.specs.Refusal.{wants_memory};
ghost use Rattle.reference_texts.specs.Views.{place_of};
ghost use Rattle.reference_listing.specs.Spelled.{IsOfPlace};

use giop_types::GiopTypes;
use reference_texts::corbaloc::Location;
use reference_texts::{Ior, ReferenceFault, profile};
use std::alloc::{AllocError, Global};

/// A reference without an id that has one profile of IIOP.
fn with_profile(alloc: Global, octets: Vec<u8>) -> Result<Ior, AllocError>
    ensures { IfOk result (λ ior. reference_of ior ≡ record { type_id = []; profiles = (0, octets.items) ∷ [] }) }
{
    let mut profiles = Vec::new(alloc);
    match profiles.push((0, octets)) {
        Ok(()) => Ok(Ior {
            type_id: Vec::new(alloc),
            profiles,
        }),
        Err(_) => Err(AllocError),
    }
}

/// The reference to the object of a place.
pub(crate) fn reference_at(
    types: &GiopTypes,
    alloc: Global,
    location: &Location,
) -> Result<Ior, ReferenceFault>
    ensures found { IfOk result (λ ior. IsOfPlace (place_of location.now) (reference_of ior)) }
    ensures refused { IfErr result (λ fault. OnFalse (wants_memory fault) ((reference : Reference)
        → IsOfPlace (place_of location.now) reference → ⊥)) }
{
    let host = location.host.as_str().as_bytes();
    match profile(types, alloc, host, location.port, location.key.as_slice()) {
        Ok(octets) => Ok(with_profile(alloc, octets)?),
        Err(fault) => Err(fault),
    }
}
