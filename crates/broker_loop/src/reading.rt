//! A read into a part of a buffer.

ghost use Rattle.std.specs.Prelude.{◌≡◌, ◌<◌, ◌≤◌, length, take, IfNone, IfOk, IfSome, OnErr};
ghost use Rattle.iiop_broker.specs.Ends.{IsEmpty};
ghost use Rattle.broker_loop.specs.Telling.{Got, HasRead, noted, with_failed_read};

use crate::connection::Connection;
use iiop_broker::Failed;

/// Reads at most so many octets, to the front of a buffer, and at most as many as it has room for.
///
/// # Errors
/// The call failed, and nothing was read.
pub(crate) fn read_within<C: Connection>(
    connection: &mut C,
    buffer: &mut [u8],
    room: usize,
) -> Result<Option<usize>, Failed>
    requires some { 0 < room }
    requires inside { 0 < length buffer.old }
    ensures room { length buffer.new ≡ length buffer.old }
    ensures within { IfOk result (λ got. IfSome got (λ n. n ≤ length buffer.old)) }
    ensures given { IfOk result
        (λ got. IfSome got (λ n. HasRead (C.told connection.old) (take n buffer.new) (C.told connection.new))) }
    ensures noted { IfOk result
        (λ got. IfSome got (λ n. C.trace connection.new ≡ noted (Got (take n buffer.new)) (C.trace connection.old))) }
    ensures end { IfOk result (λ got. IfSome got (λ n. n ≡ 0 → IsEmpty (C.told connection.new).left)) }
    ensures not_now { IfOk result (λ got. IfNone got (C.told connection.new ≡ C.told connection.old)) }
    ensures none_noted { IfOk result (λ got. IfNone got (C.trace connection.new ≡ C.trace connection.old)) }
    ensures failed { OnErr result (C.told connection.new ≡ with_failed_read (C.told connection.old)) }
    ensures unnoted { OnErr result (C.trace connection.new ≡ C.trace connection.old) }
{
    let most = room.min(buffer.len());
    connection.read(&mut buffer[..most])
}
