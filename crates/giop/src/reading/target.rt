//! The targets of requests.

ghost use Rattle.std.specs.Prelude.{◌≡◌, ℕ, List, IfOk, IfErr};
ghost use Rattle.type_graph.specs.Value.{Tree};
ghost use Rattle.giop_types.specs.TapeRefusal.{RefusesReading};
ghost use Rattle.giop.specs.inner.Tapes.{Begins, BeginsBehind};
ghost use Rattle.giop.specs.inner.Targets.{TellsTarget};
ghost use Rattle.giop_types.specs.GiopNodes.{target_address_node};

use giop_types::{
    Tagged, TapeFault, split_octets, split_tagged, split_tagged_list, split_u16, split_u32,
};
use std::alloc::Global;

/// How a target tells the key of an object.
#[derive(Clone, Copy)]
pub(crate) enum Target<'t> {
    /// By the key itself.
    Key(&'t [u8]),
    /// By a profile.
    Profile(Tagged<'t>),
    /// It tells none.
    Nothing,
}

/// What stands behind the discriminator of a target by its key.
fn split_key(tape: &[u8]) -> Result<(Target<'_>, &[u8]), TapeFault>
    ensures found { IfOk result (λ r. (target : Tree) (rest : List ℕ)
        → BeginsBehind 0 target tape.now rest → TellsTarget target r.0 × (rest ≡ r.1.now)) }
    ensures refused { IfErr result (λ fault. RefusesReading fault
        ((target : Tree) (rest : List ℕ) → BeginsBehind 0 target tape.now rest → ⊥)) }
{
    match split_octets(tape) {
        Some((key, rest)) => Ok((Target::Key(key), rest)),
        None => Err(TapeFault::NotATape),
    }
}

/// What stands behind the discriminator of a target by a profile.
fn split_profile(tape: &[u8]) -> Result<(Target<'_>, &[u8]), TapeFault>
    ensures found { IfOk result (λ r. (target : Tree) (rest : List ℕ)
        → BeginsBehind 1 target tape.now rest → TellsTarget target r.0 × (rest ≡ r.1.now)) }
    ensures refused { IfErr result (λ fault. RefusesReading fault
        ((target : Tree) (rest : List ℕ) → BeginsBehind 1 target tape.now rest → ⊥)) }
{
    match split_tagged(tape) {
        Some((profile, rest)) => Ok((Target::Profile(profile), rest)),
        None => Err(TapeFault::NotATape),
    }
}

/// What stands behind the discriminator of a target by a profile of an object reference.
fn split_reference(alloc: Global, tape: &[u8]) -> Result<(Target<'_>, &[u8]), TapeFault>
    ensures found { IfOk result (λ r. (target : Tree) (rest : List ℕ)
        → BeginsBehind 2 target tape.now rest → TellsTarget target r.0 × (rest ≡ r.1.now)) }
    ensures refused { IfErr result (λ fault. RefusesReading fault
        ((target : Tree) (rest : List ℕ) → BeginsBehind 2 target tape.now rest → ⊥)) }
{
    let Some((selected, behind)) = split_u32(tape) else {
        return Err(TapeFault::NotATape);
    };
    let Some((_, behind)) = split_octets(behind) else {
        return Err(TapeFault::NotATape);
    };
    let (profiles, rest) = match split_tagged_list(alloc, behind) {
        Ok(list) => list,
        Err(fault) => return Err(fault),
    };
    match profiles.as_slice().get(selected as usize) {
        Some(profile) => Ok((Target::Profile(*profile), rest)),
        None => Ok((Target::Nothing, rest)),
    }
}

/// The target at the front of a tape, and the rest.
///
/// # Errors
/// `NotATape` where none stands there. Want of memory.
pub(crate) fn split_target(alloc: Global, tape: &[u8]) -> Result<(Target<'_>, &[u8]), TapeFault>
    ensures found { IfOk result (λ r. (target : Tree) (rest : List ℕ)
        → Begins target_address_node target tape.now rest → TellsTarget target r.0 × (rest ≡ r.1.now)) }
    ensures refused { IfErr result (λ fault. RefusesReading fault
        ((target : Tree) (rest : List ℕ) → Begins target_address_node target tape.now rest → ⊥)) }
{
    let Some((label, behind)) = split_u16(tape) else {
        return Err(TapeFault::NotATape);
    };
    match label {
        0 => split_key(behind),
        1 => split_profile(behind),
        2 => split_reference(alloc, behind),
        _ => Ok((Target::Nothing, behind)),
    }
}
