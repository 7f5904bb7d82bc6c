//! The profiles of IIOP written.

ghost use Rattle.std.specs.Prelude.{◌≡◌, ℕ, List, IfOk, IfErr, OnOk};
ghost use Rattle.std.specs.Bool.{OnFalse};
ghost use Rattle.giop_types.specs.TapeParts.{IsCounted};
ghost use Rattle.giop_types.specs.TapeRefusal.{RefusesWriting};
ghost use Rattle.reference_texts.specs.Profiles.{IsProfile, profile_tape as tape_of_profile};
ghost use Rattle.reference_texts.specs.Refusal.{wants_memory};

use crate::encapsulation::write_encapsulation;
use crate::fault::ReferenceFault;
use giop_types::{
    GiopTypes, PROFILE_BODY_1_1, TapeFault, push_octets, push_u8, push_u16, push_u32,
};
use std::alloc::Global;

/// The version that is written, 1.2.
const MAJOR: u8 = 1;

const MINOR: u8 = 2;

/// The tape of the body of a profile without components.
fn profile_tape(alloc: Global, host: &[u8], port: u16, key: &[u8]) -> Result<Vec<u8>, TapeFault>
    ensures tape { IfOk result (λ tape. tape.items ≡ tape_of_profile host.now port key.now) }
    ensures host { OnOk result (IsCounted host.now) }
    ensures key { OnOk result (IsCounted key.now) }
    ensures refused { IfErr result (λ fault. RefusesWriting fault (IsCounted host.now → IsCounted key.now → ⊥)) }
{
    let mut tape = Vec::new(alloc);
    push_u8(&mut tape, MAJOR)?;
    push_u8(&mut tape, MINOR)?;
    match push_octets(&mut tape, host) {
        Ok(()) => (),
        Err(fault) => return Err(fault),
    }
    push_u16(&mut tape, port)?;
    match push_octets(&mut tape, key) {
        Ok(()) => (),
        Err(fault) => return Err(fault),
    }
    push_u32(&mut tape, 0)?;
    Ok(tape)
}

/// The octets of a profile of IIOP, whose tag is 0: version 1.2, the host and port of the object's
/// server, the object's key there, no components.
///
/// # Errors
/// `BadIor` where the host holds a zero, or the host or the key is too long for its count. Want of
/// memory.
pub fn profile(
    types: &GiopTypes,
    alloc: Global,
    host: &[u8],
    port: u16,
    key: &[u8],
) -> Result<Vec<u8>, ReferenceFault>
    ensures written { IfOk result (λ octets. IsProfile host.now port key.now octets.items) }
    ensures refused { IfErr result (λ fault. OnFalse (wants_memory fault) ((octets : List ℕ)
        → IsProfile host.now port key.now octets → ⊥)) }
{
    match profile_tape(alloc, host, port, key) {
        Ok(tape) => write_encapsulation(types, alloc, PROFILE_BODY_1_1, tape.as_slice()),
        Err(fault) => Err(ReferenceFault::from(fault)),
    }
}
