//! Octets handed over to a buffer of the caller's.

ghost use Rattle.std.specs.Prelude.{◌≡◌, ◌<◌, ◌≤◌, drop, length, take, IfErr, IfOk, OnErr};
ghost use Rattle.idlc_c.specs.declared.refusal.Refusal.TheVariants.{NoRoom};

use crate::refusal::Refusal;

/// Copies the octets to the front of the buffer, and tells how many they are.
pub(crate) fn put(octets: &[u8], out: &mut [u8]) -> Result<usize, Refusal>
    ensures written { IfOk result (λ len. take len out.new ≡ octets.now) }
    ensures within { IfOk result (λ len. len ≤ length out.old) }
    ensures behind { IfOk result (λ len. drop len out.new ≡ drop len out.old) }
    ensures refused { IfErr result (λ refusal. refusal ≡ NoRoom (length octets.now)) }
    ensures long { OnErr result (length out.old < length octets.now) }
    ensures kept { OnErr result (out.new ≡ out.old) }
{
    let len = octets.len();
    if len > out.len() {
        return Err(Refusal::NoRoom { needed: len });
    }
    let (front, _) = out.split_at_mut(len);
    front.copy_from_slice(octets);
    Ok(len)
}
