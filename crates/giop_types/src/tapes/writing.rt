//! What is put behind a tape.

ghost use Rattle.std.specs.Prelude.{◌≡◌, ◌++◌, ◌<◌, pos, length, IfErr, OnOk};
ghost use Rattle.type_graph.specs.declared.width.Width.TheVariants.{One, Two, Four};
ghost use Rattle.type_graph.specs.declared.width.Order.TheVariants.{Big};
ghost use Rattle.type_graph.specs.Words.{word};
ghost use Rattle.giop_types.specs.TapeParts.{counted, IsCounted, tagged, IsTagged};
ghost use Rattle.giop_types.specs.TapeRefusal.{RefusesWriting};

use crate::tapes::fault::TapeFault;
use std::alloc::AllocError;

/// Puts an octet, character or boolean behind a tape.
pub fn push_u8(tape: &mut Vec<u8>, n: u8) -> Result<(), AllocError>
    ensures { OnOk result (tape.new.items ≡ tape.old.items ++ word Big One (pos n)) }
{
    tape.extend_from_slice(&n.to_be_bytes())
}

/// Puts an unsigned short behind a tape.
pub fn push_u16(tape: &mut Vec<u8>, n: u16) -> Result<(), AllocError>
    ensures { OnOk result (tape.new.items ≡ tape.old.items ++ word Big Two (pos n)) }
{
    tape.extend_from_slice(&n.to_be_bytes())
}

/// Puts an unsigned long, an enumerator or a count behind a tape.
pub fn push_u32(tape: &mut Vec<u8>, n: u32) -> Result<(), AllocError>
    ensures { OnOk result (tape.new.items ≡ tape.old.items ++ word Big Four (pos n)) }
{
    tape.extend_from_slice(&n.to_be_bytes())
}

/// Puts a sequence of octets, or a string, behind a tape.
///
/// # Errors
/// `TooLong` where there are 4,294,967,296 octets or more. Want of memory.
pub fn push_octets(tape: &mut Vec<u8>, octets: &[u8]) -> Result<(), TapeFault>
    ensures added { OnOk result (tape.new.items ≡ tape.old.items ++ counted octets.now) }
    ensures counted { OnOk result (IsCounted octets.now) }
    ensures refused { IfErr result (λ fault. RefusesWriting fault (IsCounted octets.now → ⊥)) }
{
    let Ok(count) = u32::try_from(octets.len()) else {
        return Err(TapeFault::TooLong);
    };
    push_u32(tape, count)?;
    tape.extend_from_slice(octets)?;
    Ok(())
}

/// Puts a tag with its octets behind a tape.
///
/// # Errors
/// `TooLong` where there are 4,294,967,296 octets or more. Want of memory.
pub fn push_tagged(tape: &mut Vec<u8>, tag: u32, octets: &[u8]) -> Result<(), TapeFault>
    ensures added { OnOk result (tape.new.items ≡ tape.old.items ++ tagged (tag, octets.now)) }
    ensures fits { OnOk result (IsTagged (tag, octets.now)) }
    ensures refused { IfErr result (λ fault. RefusesWriting fault (IsTagged (tag, octets.now) → ⊥)) }
{
    push_u32(tape, tag)?;
    push_octets(tape, octets)
}
