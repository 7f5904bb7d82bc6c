//! Connections served one after the other.

ghost use Rattle.std.specs.Prelude.{◌≡◌, [], Bool, List, true, IsTrue, OnErr, OnOk};
ghost use Rattle.broker_answers.specs.Servants.{acts};
ghost use Rattle.broker_sockets.specs.Visits.{AreCut, AreServed, IsOneMore, IsShutAt, Went};

use crate::listener::{BlockingListener, Closing};
use iiop_broker::{Broker, Failed, Servant, StreamFault, serve_stream};

/// The number of the connection that is served.
const CONNECTION: u32 = 1;

/// Whether octets may still move on a connection whose stream ended so: no call failed.
pub(crate) fn is_sound(end: Result<(), StreamFault>) -> bool
    ensures { (shut : Bool) → (IsTrue result → shut ≡ true) → IsShutAt end shut }
{
    match end {
        Err(StreamFault::ReadFailed) | Err(StreamFault::WriteFailed { .. }) => false,
        _ => true,
    }
}

/// Shuts the side that is written to behind a stream that ended so, unless a call failed.
fn shut_behind<W: Closing>(writer: &mut W, end: Result<(), StreamFault>)
    ensures shut { IsShutAt end (W.shut writer.new) }
    ensures written { W.written writer.new ≡ W.written writer.old }
    ensures failure { W.failure writer.new ≡ W.failure writer.old }
{
    if is_sound(end) {
        writer.shut();
    }
}

/// Serves the next connection to its end, whether it ends well or breaks off, and hands it back.
fn serve_next<S: Servant, L: BlockingListener>(
    broker: &mut Broker<S>,
    listener: &mut L,
) -> Result<(), Failed>
    requires { broker.old.world.there ≡ [] }
    ensures visit { OnOk result
        (IsOneMore (L.went listener.old) (L.went listener.new) (acts S.says S.after) broker.old.served
        (L.came listener.old) broker.old.world.servant (L.came listener.new) broker.new.world.servant) }
    ensures none { OnErr result (L.came listener.new ≡ L.came listener.old) }
    ensures gone { OnErr result ((all : List Went) → L.went listener.old all → L.went listener.new all) }
    ensures unmoved { OnErr result (broker.new.world.servant ≡ broker.old.world.servant) }
    ensures failed { OnErr result (L.failure listener.new ≡ true) }
    ensures alone { broker.new.world.there ≡ [] }
    ensures same { broker.new.served ≡ broker.old.served }
    ensures port { L.port listener.new ≡ L.port listener.old }
{
    let Ok((mut reader, mut writer)) = listener.accept() else {
        return Err(Failed);
    };
    let end = serve_stream(broker, CONNECTION, &mut reader, &mut writer);
    shut_behind(&mut writer, end);
    listener.hand_back(reader, writer, end);
    Ok(())
}

/// Serves so many connections, one after the other, each to its end. The servant's state lasts from
/// one to the next.
///
/// # Errors
/// The next connection can't be accepted. Those before are served.
pub fn serve_connections<S: Servant, L: BlockingListener>(
    broker: &mut Broker<S>,
    listener: &mut L,
    count: u32,
) -> Result<(), Failed>
    requires alone { broker.old.world.there ≡ [] }
    requires none { L.went listener.old [] }
    ensures served { OnOk result
        (AreServed (L.went listener.new) (acts S.says S.after) broker.old.served count (L.came listener.old)
        broker.old.world.servant (L.came listener.new) broker.new.world.servant) }
    ensures cut { OnErr result
        (AreCut (L.went listener.new) (acts S.says S.after) broker.old.served count (L.came listener.old)
        broker.old.world.servant (L.came listener.new) broker.new.world.servant) }
    ensures failed { OnErr result (L.failure listener.new ≡ true) }
    ensures alone { broker.new.world.there ≡ [] }
    ensures same { broker.new.served ≡ broker.old.served }
    ensures port { L.port listener.new ≡ L.port listener.old }
{
    for _ in 0..count {
        serve_next(broker, listener)?;
    }
    Ok(())
}
