//! Connections let go of at the same time.

ghost use Rattle.std.specs.Prelude.{◌≡◌, ◌<◌, ◌↔◌, [], length, map, true, IsTrue};
ghost use Rattle.std.specs.List.{All};
ghost use Rattle.broker_sockets.specs.Parted.{HaveGone, IsTaken, with_room};
ghost use Rattle.broker_sockets.specs.inner.Sweeping.{HasTurned, IsAdded};

use crate::partings::parting::{Limits, Parting, Turn, step};
use std::alloc::Global;
use std::marker::Model;

/// As many are there at the same time at most.
pub const MAX_PARTINGS: usize = 64;

/// Closes the first where 64 are there.
fn make_room<P: Drop>(connections: &mut Vec<P>)
    ensures { connections.new.items ≡ with_room connections.old.items }
{
    if connections.len() >= MAX_PARTINGS {
        connections.remove(0);
    }
}

/// Adds one that is shut. Where 64 are there the first of them is closed, and where memory is wanted
/// this one.
fn add<P: Parting + Drop>(connections: &mut Vec<P>, connection: P)
    requires shut { (P.parted connection).shut ≡ true }
    requires all { All (λ one. (P.parted one).shut ≡ true) connections.old.items }
    ensures added { IsAdded connections.old.items connection connections.new.items }
    ensures all { All (λ one. (P.parted one).shut ≡ true) connections.new.items }
{
    make_room(connections);
    match connections.push(connection) {
        Ok(()) => {}
        Err(_) => {}
    }
}

/// Reads of the one at a place once, and closes it where it is over.
fn step_at<P: Parting + Drop>(
    connections: &mut Vec<P>,
    at: usize,
    buffer: &mut [u8],
    limits: Limits,
) -> Turn
    requires there { at < length connections.old.items }
    requires room { 0 < length buffer.old }
    requires all { All (λ one. (P.parted one).shut ≡ true) connections.old.items }
    ensures turned { HasTurned P.parted limits connections.old.items at result connections.new.items }
    ensures room { length buffer.new ≡ length buffer.old }
{
    match step(&mut connections[at], buffer, limits) {
        Turn::Moved => Turn::Moved,
        Turn::Still => Turn::Still,
        Turn::Over => {
            connections.remove(at);
            Turn::Over
        }
    }
}

/// Reads of each once, and closes those that are over: whether any octets came.
fn sweep<P: Parting + Drop>(connections: &mut Vec<P>, buffer: &mut [u8], limits: Limits) -> bool
    requires room { 0 < length buffer.old }
    requires all { All (λ one. (P.parted one).shut ≡ true) connections.old.items }
    ensures gone { HaveGone limits (map P.parted connections.old.items) (map P.parted connections.new.items) }
    ensures all { All (λ one. (P.parted one).shut ≡ true) connections.new.items }
    ensures room { length buffer.new ≡ length buffer.old }
{
    let mut moved = false;
    let mut at = 0;
    while at < connections.len() {
        match step_at(connections, at, buffer, limits) {
            Turn::Moved => {
                moved = true;
                at += 1;
            }
            Turn::Still => at += 1,
            Turn::Over => {}
        }
    }
    moved
}

/// Connections, on which no call waits, that are let go of. A contract sees what each tells.
#[derive(Drop)]
pub struct Partings<P: Parting> {
    connections: Vec<P>,
}

impl<P: Parting> Model for Partings<P> {
    ghost use Rattle.std.specs.Prelude.{◌≡◌, true, List, map};
    ghost use Rattle.std.specs.List.{All};
    ghost use Rattle.broker_sockets.specs.Parted.{Parted};

    ghost Value = { List Parted };

    ghost invariant = { λ p. All (λ one. (P.parted one).shut ≡ true) p.connections.items };

    ghost view = { λ p. map P.parted p.connections.items };
}

impl<P: Parting + Drop> Partings<P> {
    /// None. Takes no memory.
    pub fn new(alloc: Global) -> Partings<P>
        ensures { result ≡ [] }
    {
        Partings {
            connections: Vec::new(alloc),
        }
    }

    pub fn is_empty(&self) -> bool
        ensures { IsTrue result ↔ (self.now ≡ []) }
    {
        self.connections.is_empty()
    }

    /// Shuts the side of a connection that is written to, and reads it later. Where 64 are there the
    /// first of them is closed, and where memory is wanted this one.
    pub fn take(&mut self, connection: P)
        ensures { IsTaken self.old (P.parted connection) self.new }
    {
        let mut connection = connection;
        connection.shut();
        add(&mut self.connections, connection);
    }

    /// Reads of each once, and closes those that are over: whether any octets came.
    pub fn go_on(&mut self, buffer: &mut [u8], limits: Limits) -> bool
        requires { 0 < length buffer.old }
        ensures gone { HaveGone limits self.old self.new }
        ensures room { length buffer.new ≡ length buffer.old }
    {
        sweep(&mut self.connections, buffer, limits)
    }
}
