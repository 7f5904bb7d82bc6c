//! The broker.

ghost use Rattle.std.specs.Prelude.{◌≡◌, ◌<◌, ◌≤◌, ◌↔◌, [], IfOk, IfErr, IsTrue, Some, is_some};
ghost use Rattle.broker_answers.specs.Connections.{at};
ghost use Rattle.broker_answers.specs.Streams.{Closed};
ghost use Rattle.broker_answers.specs.Talk.{world};
ghost use Rattle.broker_answers.specs.Objects.{AreServed, objects_of, served};
ghost use Rattle.broker_answers.specs.Servants.{acts};
ghost use Rattle.iiop_broker.specs.Room.{is_begun, room_of};
ghost use Rattle.iiop_broker.specs.World.{IsRefused, IsStep, broking, event_of};

use crate::connections::{Connection, begin, end, is_closed, is_there};
use crate::event::Event;
use crate::fault::BrokerFault;
use crate::room::{is_begun, room};
use crate::server::Server;
use broker_answers::{Servant, Service};
use giop::Giop;
use position_checker::Accepted;
use std::alloc::Global;
use std::marker::Model;

/// Objects, the servant of their operations, and the connections that are there. A contract sees
/// what is served, the servant's state and the rest of each connection's stream.
#[derive(Drop)]
pub struct Broker<S> {
    pub(crate) server: Server<S>,
    pub(crate) connections: Vec<Connection>,
}

impl<S> Model for Broker<S> {
    ghost use Rattle.broker_answers.specs.Talk.{world};
    ghost use Rattle.iiop_broker.specs.Kept.{streams_of};
    ghost use Rattle.iiop_broker.specs.World.{Broking, broking};

    ghost Value = { Broking S };

    ghost view = { λ b. broking b.server.service (world b.server.servant (streams_of b.connections.items)) };
}

impl<S: Servant> Broker<S> {
    /// A broker without connections, of objects with their keys and the places of their interfaces
    /// in the model of the accepted types. Takes no memory.
    pub fn new(
        alloc: Global,
        giop: Giop,
        accepted: Accepted,
        objects: Vec<(Vec<u8>, u32)>,
        servant: S,
    ) -> Broker<S>
        requires { AreServed accepted.model (objects_of objects.items) }
        ensures { result ≡ broking (served accepted.model (objects_of objects.items)) (world servant []) }
    {
        Broker {
            server: Server {
                alloc,
                service: Service::new(giop, accepted, objects),
                servant,
            },
            connections: Vec::new(alloc),
        }
    }

    /// Whether the connection of a number is there. Takes no memory.
    pub fn is_there(&self, c: u32) -> bool
        ensures { result ≡ is_some (at c self.now.world.there) }
    {
        is_there(self.connections.as_slice(), c)
    }

    /// Whether the connection of a number is there and nothing more is heard on it. Takes no
    /// memory.
    pub fn is_closed(&self, c: u32) -> bool
        ensures { IsTrue result ↔ (at c self.now.world.there ≡ Some Closed) }
    {
        is_closed(self.connections.as_slice(), c)
    }

    /// Whether a message is begun on the connection of a number and isn't whole, also a request whose
    /// fragments are coming. Takes no memory.
    pub fn is_begun(&self, c: u32) -> bool
        ensures { result ≡ is_begun (at c self.now.world.there) }
    {
        is_begun(self.connections.as_slice(), c)
    }

    /// How many octets of the connection of a number are to be read next at most: what the message at
    /// its front still wants, or its head, and `MAX_ROOM` at most. So no octet behind that message is
    /// read, and a piece completes one message at most. Takes no memory.
    pub fn room(&self, c: u32) -> usize
        ensures value { result ≡ room_of (at c self.now.world.there) }
        ensures some { 0 < result }
        ensures few { result ≤ 65536 }
    {
        room(self.connections.as_slice(), c)
    }

    /// What an event is answered: octets for its connection. A piece is answered what the messages
    /// are answered that it completes; a begin and an end get no octets.
    ///
    /// # Errors
    /// `NoSuchConnection`, `AlreadyThere` and `TooMany` change nothing. `NoMemory` at a begin
    /// changes nothing; at a piece its octets are given up, the servant was given the calls of some
    /// of its messages, and the connection is closed. An end wants no memory.
    pub fn step(&mut self, event: Event<'_>) -> Result<Vec<u8>, BrokerFault>
        ensures answered { IfOk result (λ octets. IsStep (acts S.says S.after) self.old.served self.old.world
            (event_of event.entry) octets.items self.new.world) }
        ensures refused { IfErr result (λ fault. IsRefused (acts S.says S.after) self.old.served self.old.world
            (event_of event.entry) fault self.new.world) }
        ensures served { self.new.served ≡ self.old.served }
    {
        match event {
            Event::Begin(c) => match begin(self.server.alloc, &mut self.connections, c) {
                Ok(()) => Ok(Vec::new(self.server.alloc)),
                Err(fault) => Err(fault),
            },
            Event::Piece(c, octets) => self.hear_piece(c, octets),
            Event::End(c) => match end(&mut self.connections, c) {
                Ok(()) => Ok(Vec::new(self.server.alloc)),
                Err(fault) => Err(fault),
            },
        }
    }
}
