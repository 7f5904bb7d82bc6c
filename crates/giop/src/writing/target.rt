//! The targets of requests written.

ghost use Rattle.std.specs.Prelude.{IfErr, OnOk, IsTrue, ◌↔◌};
ghost use Rattle.type_graph.specs.Value.{IsText};
ghost use Rattle.giop_types.specs.TapeRefusal.{RefusesWriting};
ghost use Rattle.reference_texts.specs.References.{owned_pairs};
ghost use Rattle.giop_messages.specs.declared.fault.GiopFault.TheVariants.{BadHead};
ghost use Rattle.giop_messages.specs.Faults.{IsMemoryOr};
ghost use Rattle.giop_messages.specs.Headers.{key_target, profile_target, reference_target};
ghost use Rattle.giop.specs.Addresses.{target_tree};
ghost use Rattle.giop.specs.inner.Pushed.{FitsAsTarget, PushesTarget};

use giop_messages::GiopFault;
use giop_types::{Tagged, TapeFault, push_octets, push_tagged, push_u16, push_u32};
use reference_texts::{Ior, push_reference};

/// How the object of a request is named to its server (ISO/IEC 19500-2, GIOP message formats:
/// TargetAddress).
#[derive(Clone, Copy)]
pub enum Addressed<'a> {
    /// By its key.
    Key(&'a [u8]),
    /// By a profile.
    Profile(Tagged<'a>),
    /// By a reference, and the number of one of its profiles.
    Reference { selected: usize, reference: &'a Ior },
}

/// Whether octets can be those of a string: none is zero, and a length word says how many they are.
pub(crate) fn is_text(octets: &[u8]) -> bool
    ensures { IsTrue result ↔ IsText 0 octets.now }
{
    octets.len() < u32::MAX as usize && octets.iter().all(|octet| *octet != 0)
}

fn push_key(tape: &mut Vec<u8>, key: &[u8]) -> Result<(), TapeFault>
    ensures added { OnOk result (PushesTarget (key_target key.now) tape.old.items tape.new.items) }
    ensures refused { IfErr result (λ fault. RefusesWriting fault (FitsAsTarget (key_target key.now) → ⊥)) }
{
    push_u16(tape, 0)?;
    push_octets(tape, key)
}

fn push_profile(tape: &mut Vec<u8>, tag: u32, octets: &[u8]) -> Result<(), TapeFault>
    ensures added { OnOk result (PushesTarget (profile_target (tag, octets.now)) tape.old.items tape.new.items) }
    ensures refused { IfErr result
        (λ fault. RefusesWriting fault (FitsAsTarget (profile_target (tag, octets.now)) → ⊥)) }
{
    push_u16(tape, 1)?;
    push_tagged(tape, tag, octets)
}

/// `TooLong` also for an id that is no string.
fn push_selected(tape: &mut Vec<u8>, selected: usize, reference: &Ior) -> Result<(), TapeFault>
    ensures added { OnOk result (PushesTarget (reference_target selected reference.now.type_id.items
        (owned_pairs reference.now.profiles.items)) tape.old.items tape.new.items) }
    ensures refused { IfErr result (λ fault. RefusesWriting fault (FitsAsTarget (reference_target selected
        reference.now.type_id.items (owned_pairs reference.now.profiles.items)) → ⊥)) }
{
    let Ok(number) = u32::try_from(selected) else {
        return Err(TapeFault::TooLong);
    };
    if !is_text(reference.type_id.as_slice()) {
        return Err(TapeFault::TooLong);
    }
    push_u16(tape, 2)?;
    push_u32(tape, number)?;
    push_reference(tape, reference)
}

fn push_address(tape: &mut Vec<u8>, target: Addressed<'_>) -> Result<(), TapeFault>
    ensures added { OnOk result (PushesTarget (target_tree target.entry) tape.old.items tape.new.items) }
    ensures refused { IfErr result (λ fault. RefusesWriting fault (FitsAsTarget (target_tree target.entry) → ⊥)) }
{
    match target {
        Addressed::Key(key) => push_key(tape, key),
        Addressed::Profile(profile) => push_profile(tape, profile.tag, profile.octets),
        Addressed::Reference {
            selected,
            reference,
        } => push_selected(tape, selected, reference),
    }
}

/// Puts a target behind a tape.
///
/// # Errors
/// `BadHead` where it is no target: a part is too long for its count, or the id of its reference
/// holds a zero. Want of memory.
pub(crate) fn push_target(tape: &mut Vec<u8>, target: Addressed<'_>) -> Result<(), GiopFault>
    ensures added { OnOk result (PushesTarget (target_tree target.entry) tape.old.items tape.new.items) }
    ensures refused { IfErr result
        (λ fault. IsMemoryOr BadHead fault (FitsAsTarget (target_tree target.entry) → ⊥)) }
{
    match push_address(tape, target) {
        Ok(()) => Ok(()),
        Err(fault) => match fault {
            TapeFault::NoMemory => Err(GiopFault::NoMemory),
            _ => Err(GiopFault::BadHead),
        },
    }
}
