//! The keys of objects in profiles of IIOP.

ghost use Rattle.std.specs.Prelude.{IfOk, option_map};
ghost use Rattle.giop.specs.inner.Tapes.{IsIn};

use giop_types::GiopTypes;
use reference_listing::iiop_profile;
use std::alloc::{AllocError, Global};

/// The key in a profile.
pub(crate) fn profile_key(
    types: &GiopTypes,
    alloc: Global,
    tag: u32,
    octets: &[u8],
) -> Result<Option<Vec<u8>>, AllocError>
    ensures { IfOk result (λ key. IsIn (tag, octets.now) (option_map (λ k. k.items) key)) }
{
    match iiop_profile(types, alloc, tag, octets)? {
        Some(profile) => Ok(Some(profile.body.key)),
        None => Ok(None),
    }
}
