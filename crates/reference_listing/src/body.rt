//! Profiles of IIOP read.

ghost use Rattle.std.specs.Prelude.{◌≡◌, ◌≤◌, ℕ, List, drop, length, IfOk, IfSome, IfNone, IsTrue};
ghost use Rattle.giop_types.specs.Named.{has_name};
ghost use Rattle.reference_texts.specs.Profiles.{Body, body_node};
ghost use Rattle.reference_listing.specs.Listings.{Iiop, IsIiop, body_of, iiop_of};
ghost use Rattle.reference_listing.specs.inner.Bodies.{IsFront, IsSomeFront, is_later as is_later_than_0, minor_of};

use crate::listing::{IiopBody, IiopProfile};
use crate::tape::body_of_tape;
use giop_types::{GiopTypes, PROFILE_BODY_1_0, PROFILE_BODY_1_1, TapeFault};
use reference_texts::split_flag;
use std::alloc::{AllocError, Global};
use type_graph::Order as ByteOrder;

/// The tag of the profiles of IIOP.
const IIOP: u32 = 0;

/// Where the body stands, behind the flag of its encapsulation.
const BEHIND_FLAG: u64 = 1;

/// Whether a minor version is later than 0.
fn is_later(minor: u8) -> bool
    ensures { result ≡ is_later_than_0 minor }
{
    match minor {
        0 => false,
        _ => true,
    }
}

/// The type of the bodies of version 1.0, or of later ones.
fn node_of(later: bool) -> u32
    ensures node { result ≡ body_node (minor_of later) }
    ensures named { IsTrue (has_name result) }
{
    if later {
        PROFILE_BODY_1_1
    } else {
        PROFILE_BODY_1_0
    }
}

/// The body, later than 1.0 or not, with which octets behind a flag begin, and how many it has.
fn front_body(
    types: &GiopTypes,
    alloc: Global,
    later: bool,
    order: ByteOrder,
    octets: &[u8],
) -> Result<Option<(IiopBody, usize)>, AllocError>
    ensures found { IfOk result (λ o. IfSome o (λ r.
        IsFront octets.now order later (body_of r.0) (drop r.1 octets.now))) }
    ensures within { IfOk result (λ o. IfSome o (λ r. r.1 ≤ length octets.now)) }
    ensures refused { IfOk result (λ o. IfNone o ((body : Body) (behind : List ℕ)
        → IsFront octets.now order later body behind → ⊥)) }
{
    let (tape, taken) = match types.find(alloc, node_of(later), order, BEHIND_FLAG, octets)? {
        Some(read) => read,
        None => return Ok(None),
    };
    let body = match body_of_tape(alloc, later, tape.as_slice()) {
        Ok(body) => body,
        Err(fault) => match fault {
            TapeFault::NoMemory => return Err(AllocError),
            _ => return Ok(None),
        },
    };
    if body.major != 1 || is_later(body.minor) != later {
        return Ok(None);
    }
    Ok(Some((body, taken)))
}

/// The body of either kind with which octets behind a flag begin, and how many it has.
fn some_body(
    types: &GiopTypes,
    alloc: Global,
    order: ByteOrder,
    octets: &[u8],
) -> Result<Option<(IiopBody, usize)>, AllocError>
    ensures found { IfOk result (λ o. IfSome o (λ r.
        IsSomeFront octets.now order (body_of r.0) (drop r.1 octets.now))) }
    ensures within { IfOk result (λ o. IfSome o (λ r. r.1 ≤ length octets.now)) }
    ensures refused { IfOk result (λ o. IfNone o ((body : Body) (behind : List ℕ)
        → IsSomeFront octets.now order body behind → ⊥)) }
{
    match front_body(types, alloc, true, order, octets)? {
        Some(found) => Ok(Some(found)),
        None => front_body(types, alloc, false, order, octets),
    }
}

/// The profile of IIOP that this is, if it is one.
///
/// # Errors
/// Want of memory.
pub fn iiop_profile(
    types: &GiopTypes,
    alloc: Global,
    tag: u32,
    octets: &[u8],
) -> Result<Option<IiopProfile>, AllocError>
    ensures found { IfOk result (λ o. IfSome o (λ profile. IsIiop (tag, octets.now) (iiop_of profile))) }
    ensures refused { IfOk result (λ o. IfNone o ((iiop : Iiop) → IsIiop (tag, octets.now) iiop → ⊥)) }
{
    if tag != IIOP {
        return Ok(None);
    }
    let Some((order, inside)) = split_flag(octets) else {
        return Ok(None);
    };
    match some_body(types, alloc, order, inside)? {
        Some((body, taken)) => Ok(Some(IiopProfile {
            order,
            body,
            behind: Vec::from_slice(alloc, inside.split_at(taken).1)?,
        })),
        None => Ok(None),
    }
}
