//! Streams served.

ghost use Rattle.std.specs.Prelude.{◌≡◌, false, IfOk, IfErr};
ghost use Rattle.broker_answers.specs.Servants.{acts};
ghost use Rattle.iiop_broker.specs.Outcomes.{ends};
ghost use Rattle.iiop_broker.specs.Serving.{IsServed};

use crate::broker::Broker;
use crate::ends::{Input, Output};
use crate::event::Event;
use crate::fault::BrokerFault;
use crate::pieces::serve_pieces;
use crate::stream_fault::StreamFault;
use broker_answers::Servant;

/// Serves a connection from a reader to a writer, with at most so many reads that give octets: the
/// connection begins, each piece that is read is answered and its answer written, until all is read
/// or the broker closes the connection; then it ends.
///
/// # Errors
/// `AlreadyThere` and `TooMany` where the connection can't begin, and nothing changed. `ReadFailed`,
/// `ReadLimit` and `NoMemory` when the answers before are written; `WriteFailed` with how many
/// octets of the answers are. `NoMemory` at the begin changes nothing.
pub fn serve_stream_within<S: Servant, I: Input, O: Output>(
    broker: &mut Broker<S>,
    c: u32,
    reader: &mut I,
    writer: &mut O,
    reads: u64,
) -> Result<(), StreamFault>
    requires reading { I.failure reader.old ≡ false }
    requires writing { O.failure writer.old ≡ false }
    ensures served { IsServed (acts S.says S.after) broker.old.served c reads broker.old.world
        (ends (I.left reader.old) (O.written writer.old) (I.failure reader.old) (O.failure writer.old))
        result broker.new.world
        (ends (I.left reader.new) (O.written writer.new) (I.failure reader.new) (O.failure writer.new)) }
    ensures same { broker.new.served ≡ broker.old.served }
{
    match broker.step(Event::Begin(c)) {
        Ok(_) => {}
        Err(fault) => {
            return Err(match fault {
                BrokerFault::AlreadyThere => StreamFault::AlreadyThere,
                BrokerFault::TooMany => StreamFault::TooMany,
                BrokerFault::NoMemory => StreamFault::NoMemory,
                BrokerFault::NoSuchConnection => unreachable!(),
            });
        }
    }
    let result = serve_pieces(broker, c, reader, writer, reads);
    match broker.step(Event::End(c)) {
        Ok(_) => result,
        Err(_) => unreachable!(),
    }
}

/// How many reads `serve_stream` makes at most.
pub const MAX_READS: u64 = 4_294_967_296;

/// The same with at most 4,294,967,296 reads.
///
/// # Errors
/// As `serve_stream_within`.
pub fn serve_stream<S: Servant, I: Input, O: Output>(
    broker: &mut Broker<S>,
    c: u32,
    reader: &mut I,
    writer: &mut O,
) -> Result<(), StreamFault>
    requires reading { I.failure reader.old ≡ false }
    requires writing { O.failure writer.old ≡ false }
    ensures served { IsServed (acts S.says S.after) broker.old.served c 4294967296 broker.old.world
        (ends (I.left reader.old) (O.written writer.old) (I.failure reader.old) (O.failure writer.old))
        result broker.new.world
        (ends (I.left reader.new) (O.written writer.new) (I.failure reader.new) (O.failure writer.new)) }
    ensures same { broker.new.served ≡ broker.old.served }
{
    serve_stream_within(broker, c, reader, writer, MAX_READS)
}
