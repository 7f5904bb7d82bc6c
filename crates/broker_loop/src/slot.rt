//! A connection that is served.

ghost use Rattle.std.specs.Prelude.{◌≡◌, ◌≢◌, ◌↔◌, ◌<◌, ◌+◌, ◌++◌, ◌∷◌, [], List, ℕ, true, IsTrue, length};
ghost use Rattle.giop_messages.specs.Messages.{Closes, Says};
ghost use Rattle.broker_answers.specs.Servants.{acts};
ghost use Rattle.iiop_broker.specs.Listed.{IsThere};
ghost use Rattle.iiop_broker.specs.Outcomes.{Ends};
ghost use Rattle.broker_loop.specs.Listening.{Stays};
ghost use Rattle.broker_loop.specs.Telling.{IsAsked};
ghost use Rattle.broker_loop.specs.Visits.{Gone, IsShutAt};
ghost use Rattle.broker_loop.specs.declared.listener.End.{End};
ghost use Rattle.broker_loop.specs.declared.slot.Course.TheVariants.{Over};
ghost use Rattle.broker_loop.specs.inner.Going.{AreInTime, IsGoing, IsOn, Slotted, stays, slotted};
ghost use Rattle.broker_loop.specs.inner.Turns.{HasAsked, HasClosed, HasHeard, HasParted, HasSent, HasStood, IsJudged, IsLetGo};
ghost use Rattle.broker_loop.specs.inner.Waits.{unwaited};

use crate::connection::Connection;
use crate::limits::{Standing, Waits};
use crate::listener::{End, Limit, PolledListener};
use crate::reading::read_within;
use iiop_broker::{Broker, BrokerFault, Event, Servant};
use std::alloc::Global;
use std::marker::Model;

/// What became of a connection in its turn.
#[derive(Clone, Copy, Debug, PartialEq, Eq)]
pub(crate) enum Course {
    /// Octets moved.
    Moved,
    /// None can move now.
    Still,
    Over(End),
}

/// The message that no more is heard.
fn close_connection() -> [u8; 12]
    ensures { Says result Closes }
{
    [b'G', b'I', b'O', b'P', 1, 2, 0, 5, 0, 0, 0, 0]
}

/// Says that no more is heard, or a part of that, as far as it goes at once.
fn close<C: Connection>(connection: &mut C)
    ensures { HasClosed (C.told connection.old) (C.trace connection.old) (C.told connection.new)
        (C.trace connection.new) }
{
    let message = close_connection();
    match connection.write(message.as_slice()) {
        Ok(Some(_)) => {}
        Ok(None) => {}
        Err(_) => {}
    }
}

/// A connection whose side that is written to is shut.
pub(crate) fn closed<C: Connection>(connection: C) -> C
    ensures shut { C.shut result ≡ true }
    ensures told { C.told result ≡ C.told connection }
    ensures trace { C.trace result ≡ C.trace connection }
{
    let mut connection = connection;
    connection.shut();
    connection
}

/// A connection with its number and its last answer, of which so much is sent, and since when it
/// waits for what.
#[derive(Drop)]
pub(crate) struct Slot<C: Connection> {
    number: u32,
    connection: C,
    answer: Vec<u8>,
    sent: usize,
    waits: Waits,
}

impl<C: Connection> Model for Slot<C> {
    ghost use Rattle.std.specs.Prelude.{◌≤◌, drop, length};
    ghost use Rattle.broker_loop.specs.inner.Going.{Slotted, slotted};

    ghost Value = { Slotted };

    ghost invariant = { λ s. s.sent ≤ length s.answer.items };

    ghost view = { λ s. slotted s.number (C.told s.connection) (C.trace s.connection) s.waits
        (drop s.sent s.answer.items) };
}

impl<C: Connection> Slot<C> {
    /// One on which nothing was said yet. Takes no memory.
    pub(crate) fn new(alloc: Global, number: u32, connection: C) -> Self
        ensures { result ≡ slotted number (C.told connection) (C.trace connection) unwaited [] }
    {
        Slot {
            number,
            connection,
            answer: Vec::new(alloc),
            sent: 0,
            waits: Waits::new(),
        }
    }

    pub(crate) fn number(&self) -> u32
        ensures { result ≡ self.now.number }
    {
        self.number
    }

    /// The connection, to which nothing was said.
    fn into_plain(self) -> C
        ensures told { C.told result ≡ self.told }
        ensures trace { C.trace result ≡ self.trace }
    {
        self.connection
    }

    /// The connection, behind whose answers stands that no more is heard, or a part of that.
    fn into_parted(self) -> C
        ensures { HasParted self (C.told result) (C.trace result) }
    {
        if !self.is_sent() {
            return self.connection;
        }
        let mut connection = self.connection;
        close(&mut connection);
        connection
    }

    /// The connection as it is handed back.
    pub(crate) fn into_connection(self, end: End) -> C
        ensures let_go { IsLetGo self end (C.told result) (C.trace result) }
        ensures shut { IsShutAt end (C.shut result) }
    {
        match end {
            End::Late(_) => closed(self.into_parted()),
            End::Finished => closed(self.into_plain()),
            End::Failed => self.into_plain(),
            End::GivenUp => closed(self.into_plain()),
        }
    }

    /// Whether all answers are sent.
    fn is_sent(&self) -> bool
        ensures { IsTrue result ↔ (self.now.waiting ≡ []) }
    {
        self.sent == self.answer.len()
    }

    /// Sends some of the octets that wait.
    fn send(&mut self) -> Course
        requires { self.old.waiting ≢ [] }
        ensures { HasSent self.old result self.new }
    {
        let waiting = self.answer.as_slice().split_at(self.sent).1;
        match self.connection.write(waiting) {
            Ok(Some(0)) | Err(_) => Course::Over(End::Failed),
            Ok(Some(n)) => {
                self.sent += n;
                Course::Moved
            }
            Ok(None) => Course::Still,
        }
    }

    /// Has what comes answered.
    fn hear<S: Servant>(&mut self, broker: &mut Broker<S>, buffer: &mut [u8]) -> Course
        requires there { IsThere self.old.number broker.old.world.there }
        requires room { 0 < length buffer.old }
        ensures heard { HasHeard (acts S.says S.after) broker.old.served broker.old.world self.old result
            broker.new.world self.new }
        ensures same { broker.new.served ≡ broker.old.served }
        ensures as_long { length buffer.new ≡ length buffer.old }
    {
        let room = broker.room(self.number);
        let n = match read_within(&mut self.connection, buffer, room) {
            Ok(None) => return Course::Still,
            Ok(Some(0)) => return Course::Over(End::Finished),
            Ok(Some(n)) => n,
            Err(_) => return Course::Over(End::Failed),
        };
        match broker.step(Event::Piece(self.number, &buffer[..n])) {
            Ok(answer) => {
                self.answer = answer;
                self.sent = 0;
                Course::Moved
            }
            Err(BrokerFault::NoMemory) => Course::Over(End::GivenUp),
            Err(_) => unreachable!(),
        }
    }

    /// Moves octets as far as they go at once: what waits is sent before more is read.
    fn go_on<S: Servant>(&mut self, broker: &mut Broker<S>, buffer: &mut [u8]) -> Course
        requires there { IsThere self.old.number broker.old.world.there }
        requires room { 0 < length buffer.old }
        ensures on { (idle : ℕ) (before : S) (came : List Ends) (ended : List (ℕ × Gone)) (front back : List Slotted)
            → (going : IsGoing (acts S.says S.after) broker.old.served idle before came ended
            broker.old.world (front ++ self.old ∷ back))
            → AreInTime idle going.said broker.old.world.there (front ++ self.old ∷ back)
            → IsOn (acts S.says S.after) broker.old.served idle before came ended
            broker.new.world (stays result) front self.new back result }
        ensures asked { (looks : ℕ) → IsAsked looks self.old.trace → IsAsked looks self.new.trace }
        ensures same { broker.new.served ≡ broker.old.served }
        ensures as_long { length buffer.new ≡ length buffer.old }
    {
        if !self.is_sent() {
            return self.send();
        }
        if broker.is_closed(self.number) {
            return Course::Over(End::Finished);
        }
        self.hear(broker, buffer)
    }

    /// What holds of it when the time is told, where it went so in its turn.
    fn standing<S: Servant>(&self, broker: &Broker<S>, course: Course) -> Standing
        ensures { HasStood broker.now.world.there self.now course result }
    {
        let untaken = !self.is_sent();
        let begun = broker.is_begun(self.number);
        Standing {
            silent: course == Course::Still && !begun && !untaken,
            begun,
            untaken,
        }
    }
}

/// Tells it the time: a limit that it passed, if it did.
fn ask<L: PolledListener>(
    listener: &mut L,
    slot: &mut Slot<L::Connection>,
    standing: Standing,
    idle: u64,
) -> Option<Limit>
    ensures asked { HasAsked idle (L.looks listener.old) slot.old standing slot.new result }
    ensures came { L.came listener.new ≡ L.came listener.old }
    ensures port { L.port listener.new ≡ L.port listener.old }
    ensures stays { Stays L.ended L.there L.most L.looks listener.old listener.new }
{
    let now = listener.time(&mut slot.connection);
    slot.waits = slot.waits.at(standing, now);
    slot.waits.passed(idle, now)
}

/// What becomes of a connection that isn't over, which went so in its turn: it is over where it is
/// closed and all is sent, or passed a limit.
fn judge<S: Servant, L: PolledListener>(
    broker: &Broker<S>,
    listener: &mut L,
    slot: &mut Slot<L::Connection>,
    course: Course,
    idle: u64,
) -> Course
    requires going { (end : End) → course ≢ Over end }
    ensures judged { IsJudged idle (L.looks listener.old) broker.now.world.there slot.old course slot.new result }
    ensures came { L.came listener.new ≡ L.came listener.old }
    ensures port { L.port listener.new ≡ L.port listener.old }
    ensures stays { Stays L.ended L.there L.most L.looks listener.old listener.new }
{
    if slot.is_sent() && broker.is_closed(slot.number()) {
        return Course::Over(End::Finished);
    }
    let standing = slot.standing(broker, course);
    match ask(listener, slot, standing, idle) {
        Some(limit) => Course::Over(End::Late(limit)),
        None => course,
    }
}

/// Serves the connection as far as it goes at once; it is over too where it passed a limit, unless
/// that is 0.
pub(crate) fn slot_turn<S: Servant, L: PolledListener>(
    broker: &mut Broker<S>,
    listener: &mut L,
    slot: &mut Slot<L::Connection>,
    buffer: &mut [u8],
    idle: u64,
) -> Course
    requires there { IsThere slot.old.number broker.old.world.there }
    requires room { 0 < length buffer.old }
    ensures on { (before : S) (came : List Ends) (ended : List (ℕ × Gone)) (front back : List Slotted)
        → (going : IsGoing (acts S.says S.after) broker.old.served idle before came ended
        broker.old.world (front ++ slot.old ∷ back))
        → AreInTime idle going.said broker.old.world.there (front ++ slot.old ∷ back)
        → IsOn (acts S.says S.after) broker.old.served idle before came ended
        broker.new.world true front slot.new back result }
    ensures asked { IsAsked (L.looks listener.old) slot.old.trace → IsAsked (L.looks listener.old) slot.new.trace }
    ensures in_turn { 0 < idle → ((end : End) → result ≢ Over end)
        → IsAsked (L.looks listener.old) slot.old.trace → IsAsked (L.looks listener.old + 1) slot.new.trace }
    ensures came { L.came listener.new ≡ L.came listener.old }
    ensures port { L.port listener.new ≡ L.port listener.old }
    ensures stays { Stays L.ended L.there L.most L.looks listener.old listener.new }
    ensures same { broker.new.served ≡ broker.old.served }
    ensures as_long { length buffer.new ≡ length buffer.old }
{
    let course = slot.go_on(broker, buffer);
    if idle == 0 {
        return course;
    }
    match course {
        Course::Over(end) => Course::Over(end),
        _ => judge(broker, listener, slot, course, idle),
    }
}
