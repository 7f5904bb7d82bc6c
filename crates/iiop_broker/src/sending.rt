//! Octets written whole.

ghost use Rattle.std.specs.Prelude.{◌≡◌, ◌≤◌, true, length, take, IfErr, OnOk};
ghost use Rattle.iiop_broker.specs.Ends.{Adds, IsUnsent};

use crate::ends::Output;

/// Writes octets.
///
/// # Errors
/// How many were written before a write failed.
pub fn send<O: Output>(writer: &mut O, octets: &[u8]) -> Result<(), usize>
    ensures sent { OnOk result (Adds (O.written writer.old) octets.now (O.written writer.new)) }
    ensures sound { OnOk result (O.failure writer.new ≡ O.failure writer.old) }
    ensures unsent { IfErr result (λ n.
        IsUnsent (O.written writer.old) octets.now n (O.written writer.new) (O.failure writer.new)) }
{
    let mut sent = 0;
    while sent < octets.len() {
        match writer.write(octets.split_at(sent).1) {
            Ok(0) => return Err(sent),
            Ok(n) => sent += n,
            Err(_) => return Err(sent),
        }
    }
    Ok(())
}
