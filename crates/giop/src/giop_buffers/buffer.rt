//! Octets put into a buffer of the caller's.

ghost use Rattle.std.specs.Prelude.{◌≡◌, ◌<◌, ◌≤◌, drop, length, take, IfErr, IfOk, OnErr};

/// Copies the octets to the front of the buffer, and tells how many they are.
///
/// # Errors
/// How many they are, where the buffer has less room.
pub(crate) fn put(octets: &[u8], out: &mut [u8]) -> Result<usize, usize>
    ensures written { IfOk result (λ len. take len out.new ≡ octets.now) }
    ensures within { IfOk result (λ len. len ≤ length out.old) }
    ensures behind { IfOk result (λ len. drop len out.new ≡ drop len out.old) }
    ensures needed { IfErr result (λ needed. needed ≡ length octets.now) }
    ensures long { OnErr result (length out.old < length octets.now) }
    ensures kept { OnErr result (out.new ≡ out.old) }
{
    let len = octets.len();
    if len > out.len() {
        return Err(len);
    }
    let (front, _) = out.split_at_mut(len);
    front.copy_from_slice(octets);
    Ok(len)
}
