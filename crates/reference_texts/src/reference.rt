//! References and their tapes.

ghost use Rattle.std.specs.Prelude.{◌≡◌, ◌++◌, List, ℕ, IfOk, IfErr, OnOk};
ghost use Rattle.std.specs.List.{AllByRecursion};
ghost use Rattle.type_graph.specs.Words.{AllBelow};
ghost use Rattle.giop_types.specs.TapeParts.{IsTagged, tagged, tagged_each, pairs_of};
ghost use Rattle.giop_types.specs.TapeRefusal.{RefusesReading, RefusesWriting};
ghost use Rattle.reference_texts.specs.References.{AreBelow, Reference, reference_of, reference_tape, IsReference, IsFront, owned_pairs};

use giop_types::{
    Tagged, TapeFault, push_octets, push_tagged, push_u32, split_octets, split_tagged_list,
};
use std::alloc::{AllocError, Global};

/// An object reference (ISO/IEC 19500-2, IOP: IOR). The nil reference has an empty id and no
/// profiles.
#[derive(Drop)]
pub struct Ior {
    /// The repository id of the interface.
    pub type_id: Vec<u8>,
    /// Each with its tag; tag 0 is that of IIOP.
    pub profiles: Vec<(u32, Vec<u8>)>,
}

/// As `push_tagged`: what it puts there are octets.
fn push_one(tape: &mut Vec<u8>, tag: u32, octets: &[u8]) -> Result<(), TapeFault>
    ensures added { OnOk result (tape.new.items ≡ tape.old.items ++ tagged (tag, octets.now)) }
    ensures fits { OnOk result (IsTagged (tag, octets.now)) }
    ensures octets { AllBelow 256 octets.now }
    ensures refused { IfErr result (λ fault. RefusesWriting fault (IsTagged (tag, octets.now) → ⊥)) }
{
    push_tagged(tape, tag, octets)
}

fn push_profiles(tape: &mut Vec<u8>, profiles: &[(u32, Vec<u8>)]) -> Result<(), TapeFault>
    ensures added { OnOk result (tape.new.items ≡ tape.old.items ++ tagged_each (owned_pairs profiles.now)) }
    ensures each { OnOk result (AllByRecursion IsTagged (owned_pairs profiles.now)) }
    ensures octets { OnOk result (AreBelow (owned_pairs profiles.now)) }
    ensures refused { IfErr result
        (λ fault. RefusesWriting fault (AllByRecursion IsTagged (owned_pairs profiles.now) → ⊥)) }
{
    for (tag, octets) in profiles {
        match push_one(tape, *tag, octets.as_slice()) {
            Ok(()) => (),
            Err(fault) => return Err(fault),
        }
    }
    Ok(())
}

/// Puts a reference behind a tape.
///
/// # Errors
/// `TooLong` where a part is too long for its count. Want of memory. The tape may then hold more.
pub fn push_reference(tape: &mut Vec<u8>, reference: &Ior) -> Result<(), TapeFault>
    ensures added { OnOk result (tape.new.items ≡ tape.old.items ++ reference_tape (reference_of reference.now)) }
    ensures fits { OnOk result (IsReference (reference_of reference.now)) }
    ensures octets { OnOk result (AreBelow (reference_of reference.now).profiles) }
    ensures refused { IfErr result (λ fault. RefusesWriting fault (IsReference (reference_of reference.now) → ⊥)) }
{
    let Ok(count) = u32::try_from(reference.profiles.len()) else {
        return Err(TapeFault::TooLong);
    };
    match push_octets(tape, reference.type_id.as_slice()) {
        Ok(()) => (),
        Err(fault) => return Err(fault),
    }
    push_u32(tape, count)?;
    push_profiles(tape, reference.profiles.as_slice())
}

/// Tags with octets of their own.
///
/// # Errors
/// Want of memory.
pub fn owned(alloc: Global, profiles: &[Tagged<'_>]) -> Result<Vec<(u32, Vec<u8>)>, AllocError>
    ensures { IfOk result (λ all. owned_pairs all.items ≡ pairs_of profiles.now) }
{
    let mut all = Vec::new(alloc);
    for profile in profiles {
        let octets = profile.octets.to_vec(alloc)?;
        match all.push((profile.tag, octets)) {
            Ok(()) => (),
            Err(_) => return Err(AllocError),
        }
    }
    Ok(all)
}

/// The reference at the front of a tape.
///
/// # Errors
/// `NotATape` where none stands there. Want of memory.
pub fn reference_in(alloc: Global, tape: &[u8]) -> Result<Ior, TapeFault>
    ensures found { IfOk result (λ ior. (rest : List ℕ) × IsFront tape.now (reference_of ior) rest) }
    ensures refused { IfErr result (λ fault. RefusesReading fault ((reference : Reference) (rest : List ℕ)
        → IsFront tape.now reference rest → ⊥)) }
{
    let Some((type_id, behind)) = split_octets(tape) else {
        return Err(TapeFault::NotATape);
    };
    let (profiles, _) = match split_tagged_list(alloc, behind) {
        Ok(split) => split,
        Err(fault) => return Err(fault),
    };
    Ok(Ior {
        type_id: Vec::from_slice(alloc, type_id)?,
        profiles: owned(alloc, profiles.as_slice())?,
    })
}
