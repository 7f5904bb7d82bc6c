//! What references say, as lines.

ghost use Rattle.std.specs.Prelude.{◌≡◌, ℕ, List, IfOk, IsTrue};
ghost use Rattle.std.specs.String.{string_bytes};
ghost use Rattle.giop_types.specs.Named.{has_name};
ghost use Rattle.reference_texts.specs.Encapsulations.{EncapsulatesSo};
ghost use Rattle.reference_texts.specs.Manners.{manner_of as the_manner};
ghost use Rattle.reference_texts.specs.Profiles.{body_node};
ghost use Rattle.reference_texts.specs.References.{owned_pairs, reference_of, reference_tree};
ghost use Rattle.reference_listing.specs.Listings.{IsIiop, iiop_of};
ghost use Rattle.reference_listing.specs.Pieces.{AreLines, IsComponent};
ghost use Rattle.reference_listing.specs.Lines.{IsIiopText, IsOtherText, IsProfileText, IsTold, address_lines};
ghost use Rattle.reference_listing.specs.inner.Profiles.{AreGapsOf};

use crate::spelled_references::names::profile_name;
use crate::spelled_references::pieces::{all_gaps, behind_text, component_line, tag_text};
use crate::spelled_references::shown::{digits_text, order_name, shown_text};
use crate::{IiopProfile, ListedProfile, list_profile};
use giop_types::{GiopTypes, PROFILE_BODY_1_0, PROFILE_BODY_1_1};
use reference_texts::{Ior, Manner, ReferenceFault, manner_of};
use std::alloc::{AllocError, Global};

/// What stands before a line of a profile.
const INDENT: &str = "  ";

fn component_lines(alloc: Global, components: &[(u32, Vec<u8>)]) -> Result<String, AllocError>
    ensures { IfOk result (λ lines.
        AreLines IsComponent 0 (owned_pairs components.now) (string_bytes lines)) }
{
    let mut lines = String::new(alloc);
    let mut number = 0;
    for (tag, octets) in components {
        let line = component_line(alloc, number, *tag, octets.as_slice())?;
        lines.push_str(line.as_str())?;
        number += 1;
    }
    Ok(lines)
}

/// The lines of the address of a profile of IIOP.
fn address_text(alloc: Global, number: usize, profile: &IiopProfile) -> Result<String, AllocError>
    ensures { IfOk result (λ lines. string_bytes lines ≡ address_lines number (iiop_of profile.now)) }
{
    let body = &profile.body;
    let host = shown_text(alloc, body.host.as_slice())?;
    let key = digits_text(alloc, body.key.as_slice())?;
    let text = shown_text(alloc, body.key.as_slice())?;
    let order = order_name(profile.order);
    let (major, minor, port) = (body.major, body.minor, body.port);
    format!(in alloc;
        "profile {number} IIOP {major}.{minor} order {order}\n  host {host}\n  port {port}\n  key {key}\n  key as text {text}\n"
    )
}

/// The type of the bodies of a minor version.
fn node_of(minor: u8) -> u32
    ensures node { result ≡ body_node minor }
    ensures named { IsTrue (has_name result) }
{
    match minor {
        0 => PROFILE_BODY_1_0,
        _ => PROFILE_BODY_1_1,
    }
}

/// The octets of the gaps of a profile of IIOP that aren't zero, with their places.
fn gaps_of(
    types: &GiopTypes,
    alloc: Global,
    tag: u32,
    octets: &[u8],
    profile: &IiopProfile,
) -> Result<Vec<(usize, u8)>, AllocError>
    requires { IsIiop (tag, octets.now) (iiop_of profile.now) }
    ensures { IfOk result (λ gaps. AreGapsOf octets.now (iiop_of profile.now) gaps.items) }
{
    match manner_of(types, alloc, node_of(profile.body.minor), octets) {
        Ok(
            Manner {
                order: _,
                gaps,
                behind: _,
            },
        ) => Ok(gaps),
        Err(ReferenceFault::NoMemory) => Err(AllocError),
        Err(ReferenceFault::BadIor) => unreachable!(),
    }
}

/// The lines of a profile of IIOP with its number.
fn iiop_text(
    types: &GiopTypes,
    alloc: Global,
    number: usize,
    tag: u32,
    octets: &[u8],
    profile: &IiopProfile,
) -> Result<String, AllocError>
    requires { IsIiop (tag, octets.now) (iiop_of profile.now) }
    ensures { IfOk result (λ lines.
        IsIiopText number (tag, octets.now) (iiop_of profile.now) (string_bytes lines)) }
{
    let gaps = gaps_of(types, alloc, tag, octets, profile)?;
    let mut lines = address_text(alloc, number, profile)?;
    let components = component_lines(alloc, profile.body.components.as_slice())?;
    lines.push_str(components.as_str())?;
    let gaps = all_gaps(alloc, INDENT, gaps.as_slice())?;
    lines.push_str(gaps.as_str())?;
    let behind = behind_text(alloc, INDENT, profile.behind.as_slice())?;
    lines.push_str(behind.as_str())?;
    Ok(lines)
}

/// The lines of any other profile.
fn other_text(alloc: Global, number: usize, tag: u32, octets: &[u8]) -> Result<String, AllocError>
    ensures { IfOk result (λ lines. IsOtherText number tag octets.now (string_bytes lines)) }
{
    let tag = tag_text(alloc, tag, profile_name(tag))?;
    let octets = digits_text(alloc, octets)?;
    format!(in alloc; "profile {number} tag {tag}\n  octets {octets}\n")
}

/// The lines of a profile with its number.
fn profile_text(
    types: &GiopTypes,
    alloc: Global,
    number: usize,
    tag: u32,
    octets: &[u8],
) -> Result<String, AllocError>
    ensures { IfOk result (λ lines. IsProfileText number (tag, octets.now) (string_bytes lines)) }
{
    match list_profile(types, alloc, tag, octets)? {
        ListedProfile::Iiop(profile) => iiop_text(types, alloc, number, tag, octets, &profile),
        ListedProfile::Other { tag, octets } => other_text(alloc, number, tag, octets.as_slice()),
    }
}

fn profiles_text(
    types: &GiopTypes,
    alloc: Global,
    profiles: &[(u32, Vec<u8>)],
) -> Result<String, AllocError>
    ensures { IfOk result (λ lines.
        AreLines IsProfileText 0 (owned_pairs profiles.now) (string_bytes lines)) }
{
    let mut lines = String::new(alloc);
    let mut number = 0;
    for (tag, octets) in profiles {
        let profile = profile_text(types, alloc, number, *tag, octets.as_slice())?;
        lines.push_str(profile.as_str())?;
        number += 1;
    }
    Ok(lines)
}

/// The lines of a reference that its octets say in a manner: its id and their byte order, each profile
/// with its number, the octets of gaps that aren't zero, and those behind it.
pub(crate) fn reference_text(
    types: &GiopTypes,
    alloc: Global,
    ior: &Ior,
    manner: &Manner,
) -> Result<String, AllocError>
    ensures { IfOk result (λ lines. (octets : List ℕ)
        → EncapsulatesSo 13 (reference_tree (reference_of ior.now)) (the_manner manner.now) octets
        → IsTold octets (reference_of ior.now) (string_bytes lines)) }
{
    let id = shown_text(alloc, ior.type_id.as_slice())?;
    let order = order_name(manner.order);
    let mut lines = format!(in alloc; "type {id}\norder {order}\n")?;
    let profiles = profiles_text(types, alloc, ior.profiles.as_slice())?;
    lines.push_str(profiles.as_str())?;
    let gaps = all_gaps(alloc, "", manner.gaps.as_slice())?;
    lines.push_str(gaps.as_str())?;
    let behind = behind_text(alloc, "", manner.behind.as_slice())?;
    lines.push_str(behind.as_str())?;
    Ok(lines)
}
