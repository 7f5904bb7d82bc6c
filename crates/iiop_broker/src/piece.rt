//! Octets that come on a connection.

ghost use Rattle.std.specs.Prelude.{◌≡◌, IfOk, IfErr};
ghost use Rattle.broker_answers.specs.Talk.{Answers, Brings, rests};
ghost use Rattle.broker_answers.specs.Servants.{acts};
ghost use Rattle.broker_answers.specs.Serving.{Serves};
ghost use Rattle.iiop_broker.specs.World.{IsRefused};

use crate::broker::Broker;
use crate::connections::{exchange, place_of};
use crate::fault::BrokerFault;
use crate::kept::Kept;
use broker_answers::Servant;

impl<S: Servant> Broker<S> {
    /// Serves the octets that come on a connection.
    pub(crate) fn hear_piece(&mut self, c: u32, octets: &[u8]) -> Result<Vec<u8>, BrokerFault>
        ensures answered { IfOk result (λ answer. Answers rests (Serves (acts S.says S.after) self.old.served)
            self.old.world c octets.now answer.items self.new.world) }
        ensures refused { IfErr result (λ fault. IsRefused (acts S.says S.after) self.old.served
            self.old.world (Brings c octets.now) fault self.new.world) }
        ensures served { self.new.served ≡ self.old.served }
    {
        let place = match place_of(self.connections.as_slice(), c) {
            Some(place) => place,
            None => return Err(BrokerFault::NoSuchConnection),
        };
        let (run, mut rest) = match exchange(&mut self.connections, place, c, Kept::Closed) {
            Kept::Open { run, rest } => (run, rest),
            Kept::Closed => return Ok(Vec::new(self.server.alloc)),
        };
        match rest.extend_from_slice(octets) {
            Ok(()) => {}
            Err(_) => return Err(BrokerFault::NoMemory),
        }
        match self.server.hear(run, rest) {
            Ok(heard) => {
                exchange(&mut self.connections, place, c, heard.kept);
                Ok(heard.answer)
            }
            Err(_) => Err(BrokerFault::NoMemory),
        }
    }
}
