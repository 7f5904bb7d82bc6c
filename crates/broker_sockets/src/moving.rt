//! Octets moved by a call that a signal may end.

ghost use Rattle.std.specs.Prelude.{◌≡◌, ◌≤◌, length, false, IfOk, IfSome};
ghost use Rattle.iiop_broker.specs.Ends.{is_stuck};

use crate::tally::Tally;
use iiop_broker::Failed;
use std::io::{ErrorKind, Read, Write};

/// A call that a signal ends is made so often at most.
pub(crate) const TRIES: u32 = 100;

/// Reads what is there; None where a call would wait, or waited for as long as it may.
pub(crate) fn read_now<S: Read>(stream: &mut S, buffer: &mut [u8]) -> Result<Option<usize>, Failed>
    ensures room { length buffer.new ≡ length buffer.old }
    ensures within { IfOk result (λ got. IfSome got (λ n. n ≤ length buffer.old)) }
{
    for _ in 0..TRIES {
        match stream.read(buffer) {
            Ok(n) => return Ok(Some(n)),
            Err(error) if error.kind() == ErrorKind::Interrupted => {}
            Err(error) if error.kind() == ErrorKind::WouldBlock => return Ok(None),
            Err(_) => return Err(Failed),
        }
    }
    Ok(None)
}

/// Writes what is taken now, and counts its messages; None where a call would wait. It fails too
/// where the stream takes 0 of some.
pub(crate) fn write_now<S: Write>(
    stream: &mut S,
    octets: &[u8],
    tally: &mut Tally,
) -> Result<Option<usize>, Failed>
    ensures within { IfOk result (λ got. IfSome got (λ n. n ≤ length octets.now)) }
    ensures some { IfOk result (λ got. IfSome got (λ n. is_stuck octets.now n ≡ false)) }
{
    for _ in 0..TRIES {
        match stream.write(octets) {
            Ok(0) if !octets.is_empty() => return Err(Failed),
            Ok(n) => {
                tally.see(octets.split_at(n).0);
                return Ok(Some(n));
            }
            Err(error) if error.kind() == ErrorKind::Interrupted => {}
            Err(error) if error.kind() == ErrorKind::WouldBlock => return Ok(None),
            Err(_) => return Err(Failed),
        }
    }
    Ok(None)
}
