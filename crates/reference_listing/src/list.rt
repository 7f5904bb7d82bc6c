//! References listed.

ghost use Rattle.std.specs.Prelude.{IfOk};
ghost use Rattle.reference_texts.specs.References.{owned_pairs, reference_of};
ghost use Rattle.reference_listing.specs.Listings.{AreRows, IsListing, IsRow, row_of, rows_of};

use crate::body::iiop_profile;
use crate::listing::{ListedProfile, Listing};
use giop_types::GiopTypes;
use reference_texts::Ior;
use std::alloc::{AllocError, Global};

/// What a profile with this tag and these octets says.
///
/// # Errors
/// Want of memory.
pub fn list_profile(
    types: &GiopTypes,
    alloc: Global,
    tag: u32,
    octets: &[u8],
) -> Result<ListedProfile, AllocError>
    ensures { IfOk result (λ profile. IsRow (tag, octets.now) (row_of profile)) }
{
    match iiop_profile(types, alloc, tag, octets)? {
        Some(profile) => Ok(ListedProfile::Iiop(profile)),
        None => Ok(ListedProfile::Other {
            tag,
            octets: Vec::from_slice(alloc, octets)?,
        }),
    }
}

fn list_profiles(
    types: &GiopTypes,
    alloc: Global,
    profiles: &[(u32, Vec<u8>)],
) -> Result<Vec<ListedProfile>, AllocError>
    ensures { IfOk result (λ listed. AreRows (owned_pairs profiles.now) (rows_of listed.items)) }
{
    let mut listed = Vec::new(alloc);
    for (tag, octets) in profiles {
        let profile = list_profile(types, alloc, *tag, octets.as_slice())?;
        match listed.push(profile) {
            Ok(()) => (),
            Err(_) => return Err(AllocError),
        }
    }
    Ok(listed)
}

/// What a reference says, profile by profile.
///
/// # Errors
/// Want of memory.
pub fn list_reference(types: &GiopTypes, alloc: Global, ior: &Ior) -> Result<Listing, AllocError>
    ensures { IfOk result (λ listing. IsListing (reference_of ior.now) listing) }
{
    Ok(Listing {
        type_id: Vec::from_slice(alloc, ior.type_id.as_slice())?,
        profiles: list_profiles(types, alloc, ior.profiles.as_slice())?,
    })
}
