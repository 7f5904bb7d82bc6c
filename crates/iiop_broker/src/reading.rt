//! A read into a part of a buffer.

ghost use Rattle.std.specs.Prelude.{◌≡◌, ◌<◌, ◌≤◌, [], length, take, true, IfOk, OnErr, OnOk};
ghost use Rattle.iiop_broker.specs.Ends.{Gives, IsEmpty};

use crate::ends::{Failed, Input};

/// Reads at most so many octets, to the front of a buffer.
///
/// # Errors
/// The call failed, and nothing was read.
pub fn read_within<I: Input>(
    reader: &mut I,
    buffer: &mut [u8],
    room: usize,
) -> Result<usize, Failed>
    requires some { 0 < room }
    requires inside { room ≤ length buffer.old }
    ensures room { length buffer.new ≡ length buffer.old }
    ensures within { IfOk result (λ n. n ≤ room) }
    ensures given { IfOk result (λ n. Gives (I.left reader.old) (take n buffer.new) (I.left reader.new)) }
    ensures end { IfOk result (λ n. n ≡ 0 → IsEmpty (I.left reader.new)) }
    ensures sound { OnOk result (I.failure reader.new ≡ I.failure reader.old) }
    ensures kept { OnErr result (Gives (I.left reader.old) [] (I.left reader.new)) }
    ensures failed { OnErr result (I.failure reader.new ≡ true) }
{
    reader.read(&mut buffer[..room])
}
