//! One connection let go of by calls that wait.

ghost use Rattle.std.specs.Prelude.{◌<◌, length};
ghost use Rattle.broker_sockets.specs.Parted.{HasParted};

use crate::partings::parting::{Limits, Parting, Turn, step};

/// Lets go of a connection: shuts the side that is written to, and reads until the end, a read that
/// fails or finds nothing, or a limit.
pub fn part<P: Parting>(connection: &mut P, buffer: &mut [u8], limits: Limits)
    requires { 0 < length buffer.old }
    ensures { HasParted limits (P.parted connection.old) (P.parted connection.new) }
{
    connection.shut();
    for _ in 0..limits.reads {
        match step(connection, buffer, limits) {
            Turn::Moved => {}
            Turn::Still => return,
            Turn::Over => return,
        }
    }
}
