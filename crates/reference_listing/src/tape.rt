//! The parts of the tape of a body.

ghost use Rattle.std.specs.Prelude.{◌≡◌, ◌<◌, ◌^◌, ℕ, pos, List, ◌++◌, IfOk, IfErr, IfSome, IfNone};
ghost use Rattle.type_graph.specs.declared.width.Order.TheVariants.{Big};
ghost use Rattle.type_graph.specs.declared.width.Width.TheVariants.{One};
ghost use Rattle.type_graph.specs.Words.{word};
ghost use Rattle.giop_types.specs.TapeRefusal.{RefusesReading};
ghost use Rattle.reference_texts.specs.Profiles.{Body};
ghost use Rattle.reference_texts.specs.References.{owned_pairs};
ghost use Rattle.reference_listing.specs.Listings.{body_of};
ghost use Rattle.reference_listing.specs.inner.Bodies.{AreBehind, IsAddress, IsBodyTape};

use crate::listing::IiopBody;
use giop_types::{TapeFault, split_octets, split_tagged_list, split_u8, split_u16};
use reference_texts::owned;
use std::alloc::Global;

/// The address of an object: the host and port of its server, and its key there.
#[derive(Clone, Copy)]
struct Address<'t> {
    host: &'t [u8],
    port: u16,
    key: &'t [u8],
}

/// The version, and what stands behind it.
fn split_version(tape: &[u8]) -> Option<(u8, u8, &[u8])>
    ensures found { IfSome result (λ r. (r.0 < 2 ^ 8) × (r.1 < 2 ^ 8)
        × (tape.now ≡ word Big One (pos r.0) ++ (word Big One (pos r.1) ++ r.2.now))) }
    ensures refused { IfNone result ((m n : ℕ) (rest : List ℕ)
        → tape.now ≡ word Big One (pos m) ++ (word Big One (pos n) ++ rest) → ⊥) }
{
    let Some((major, behind)) = split_u8(tape) else {
        return None;
    };
    match split_u8(behind) {
        Some((minor, rest)) => Some((major, minor, rest)),
        None => None,
    }
}

/// The address behind the version, and what stands behind it.
fn split_address(tape: &[u8]) -> Option<(Address<'_>, &[u8])>
    ensures found { IfSome result (λ r. IsAddress tape.now r.0.host.now r.0.port r.0.key.now r.1.now) }
    ensures refused { IfNone result ((host : List ℕ) (port : ℕ) (key rest : List ℕ)
        → IsAddress tape.now host port key rest → ⊥) }
{
    let Some((host, behind)) = split_octets(tape) else {
        return None;
    };
    let Some((port, behind)) = split_u16(behind) else {
        return None;
    };
    match split_octets(behind) {
        Some((key, rest)) => Some((Address { host, port, key }, rest)),
        None => None,
    }
}

/// The components behind a key, where the version has them.
fn components(alloc: Global, later: bool, tape: &[u8]) -> Result<Vec<(u32, Vec<u8>)>, TapeFault>
    ensures found { IfOk result (λ all. AreBehind later tape.now (owned_pairs all.items)) }
    ensures refused { IfErr result (λ fault. RefusesReading fault ((all : List (ℕ × List ℕ))
        → AreBehind later tape.now all → ⊥)) }
{
    if !later {
        return Ok(Vec::new(alloc));
    }
    let (all, _) = match split_tagged_list(alloc, tape) {
        Ok(split) => split,
        Err(fault) => return Err(fault),
    };
    Ok(owned(alloc, all.as_slice())?)
}

/// The body whose tape this is, of version 1.0 or a later one.
///
/// # Errors
/// `NotATape` where it is that of none. Want of memory.
pub(crate) fn body_of_tape(alloc: Global, later: bool, tape: &[u8]) -> Result<IiopBody, TapeFault>
    ensures found { IfOk result (λ body. IsBodyTape later tape.now (body_of body)) }
    ensures refused { IfErr result (λ fault. RefusesReading fault ((body : Body)
        → IsBodyTape later tape.now body → ⊥)) }
{
    let Some((major, minor, behind)) = split_version(tape) else {
        return Err(TapeFault::NotATape);
    };
    let Some((address, rest)) = split_address(behind) else {
        return Err(TapeFault::NotATape);
    };
    let components = match components(alloc, later, rest) {
        Ok(all) => all,
        Err(fault) => return Err(fault),
    };
    Ok(IiopBody {
        major,
        minor,
        host: Vec::from_slice(alloc, address.host)?,
        port: address.port,
        key: Vec::from_slice(alloc, address.key)?,
        components,
    })
}
