//! A connection that was begun, served from a reader to a writer.

ghost use Rattle.std.specs.Prelude.{◌≡◌, ℕ, List, [], false};
ghost use Rattle.broker_answers.specs.Streams.{Stream};
ghost use Rattle.broker_answers.specs.Servants.{acts};
ghost use Rattle.iiop_broker.specs.AnsweredStreams.{AnsweredStream};
ghost use Rattle.iiop_broker.specs.Outcomes.{IsOutcome, ends};
ghost use Rattle.iiop_broker.specs.inner.Running.{IsFresh, running, running_in_part};

use crate::broker::Broker;
use crate::ends::{Input, Output};
use crate::fault::BrokerFault;
use crate::reading::read_within;
use crate::room::MAX_ROOM;
use crate::sending::send;
use crate::stream_fault::StreamFault;
use broker_answers::Servant;

/// Serves what is read until all is read or the broker closes the connection.
pub(crate) fn serve_pieces<S: Servant, I: Input, O: Output>(
    broker: &mut Broker<S>,
    c: u32,
    reader: &mut I,
    writer: &mut O,
    reads: u64,
) -> Result<(), StreamFault>
    requires { IsFresh (acts S.says S.after) broker.old.served c broker.old.world }
    ensures outcome { (others : List (ℕ × Stream)) (before : S)
        → AnsweredStream (acts S.says S.after) broker.old.served c others before [] [] false broker.old.world
        → IsOutcome (running (acts S.says S.after) broker.old.served c others before broker.new.world)
        (running_in_part (acts S.says S.after) broker.old.served c others before broker.new.world) reads
        (ends (I.left reader.old) (O.written writer.old) (I.failure reader.old) (O.failure writer.old)) result
        (ends (I.left reader.new) (O.written writer.new) (I.failure reader.new) (O.failure writer.new)) }
    ensures served { broker.new.served ≡ broker.old.served }
{
    let mut buffer = [0u8; MAX_ROOM];
    let mut sent: u128 = 0;
    let mut count: u64 = 0;
    while count < reads {
        let room = broker.room(c);
        let n = match read_within(reader, &mut buffer, room) {
            Ok(0) => return Ok(()),
            Ok(n) => n,
            Err(_) => return Err(StreamFault::ReadFailed),
        };
        let answer = match broker.hear_piece(c, buffer.as_slice().split_at(n).0) {
            Ok(answer) => answer,
            Err(fault) => match fault {
                BrokerFault::NoMemory => return Err(StreamFault::NoMemory),
                _ => unreachable!(),
            },
        };
        match send(writer, answer.as_slice()) {
            Ok(()) => {}
            Err(n) => {
                return Err(StreamFault::WriteFailed {
                    sent: sent + n as u128,
                });
            }
        }
        if broker.is_closed(c) {
            return Ok(());
        }
        sent += answer.len() as u128;
        count += 1;
    }
    Err(StreamFault::ReadLimit)
}
