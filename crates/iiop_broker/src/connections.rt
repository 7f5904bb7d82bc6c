//! The connections that are there.

ghost use Rattle.std.specs.Prelude.{◌≡◌, ◌<◌, ◌↔◌, ℕ, length, IfErr, IfNone, IfSome, IsTrue, OnOk, None, Some, is_some, option_map};
ghost use Rattle.broker_answers.specs.Connections.{at, put, without};
ghost use Rattle.broker_answers.specs.Streams.{Closed};
ghost use Rattle.iiop_broker.specs.Kept.{stream_of, streams_of};
ghost use Rattle.iiop_broker.specs.Listed.{IsBegun, IsLeft, IsNotBegun, IsNotLeft, IsPlace, place_from};

use crate::fault::BrokerFault;
use crate::kept::Kept;
use std::alloc::Global;
use std::mem;

/// Its number, and what is kept of it.
pub(crate) type Connection = (u32, Kept);

/// As many connections may be there at once.
pub const MAX_CONNECTIONS: usize = 64;

/// What is kept of the connection of a number.
pub(crate) fn kept_of(connections: &[Connection], c: u32) -> Option<&Kept>
    ensures { option_map (λ kept. stream_of kept.now) result ≡ at c (streams_of connections.now) }
{
    for connection in connections {
        if connection.0 == c {
            return Some(&connection.1);
        }
    }
    None
}

/// Whether the connection of a number is there.
#[tactic(auto, using(crate::proofs::Places::some_kept))]
pub(crate) fn is_there(connections: &[Connection], c: u32) -> bool
    ensures { result ≡ is_some (at c (streams_of connections.now)) }
{
    kept_of(connections, c).is_some()
}

/// Whether it is there and closed.
pub(crate) fn is_closed(connections: &[Connection], c: u32) -> bool
    ensures { IsTrue result ↔ (at c (streams_of connections.now) ≡ Some Closed) }
{
    match kept_of(connections, c) {
        Some(Kept::Closed) => true,
        _ => false,
    }
}

fn first_place(connections: &[Connection], c: u32) -> Option<usize>
    ensures { result ≡ place_from 0 c (streams_of connections.now) }
{
    for place in 0..connections.len() {
        if connections[place].0 == c {
            return Some(place);
        }
    }
    None
}

/// The place of the connection of a number.
#[tactic(auto, using(crate::proofs::Places::placed, crate::proofs::Places::unplaced))]
pub(crate) fn place_of(connections: &[Connection], c: u32) -> Option<usize>
    ensures found { IfSome result (λ place. IsPlace 0 c place (streams_of connections.now)) }
    ensures absent { IfNone result (at c (streams_of connections.now) ≡ None) }
{
    first_place(connections, c)
}

/// Keeps something else of the connection at a place.
#[tactic(auto, using(crate::proofs::Places::streams_set, crate::proofs::Places::streams_was, crate::proofs::Places::streams_below, crate::proofs::Places::put_place))]
pub(crate) fn exchange(connections: &mut Vec<Connection>, place: usize, c: u32, kept: Kept) -> Kept
    requires { IsPlace 0 c place (streams_of connections.old.items) }
    ensures was { at c (streams_of connections.old.items) ≡ Some (stream_of result) }
    ensures now { streams_of connections.new.items ≡ put c (stream_of kept) (streams_of connections.old.items) }
    ensures place { IsPlace 0 c place (streams_of connections.new.items) }
{
    let (_, was) = mem::replace(&mut connections[place], (c, kept));
    was
}

/// Takes the connection at a place away.
#[tactic(auto, using(crate::proofs::Places::streams_removed))]
fn remove_at(connections: &mut Vec<Connection>, place: usize)
    requires { place < length connections.old.items }
    ensures { (c : ℕ) → IsPlace 0 c place (streams_of connections.old.items)
        → streams_of connections.new.items ≡ without c (streams_of connections.old.items) }
{
    connections.remove(place);
}

/// Adds a connection.
#[tactic(auto, using(crate::proofs::Places::streams_pushed, crate::proofs::Places::at_place))]
pub(crate) fn begin(
    alloc: Global,
    connections: &mut Vec<Connection>,
    c: u32,
) -> Result<(), BrokerFault>
    ensures begun { OnOk result (IsBegun c (streams_of connections.old.items) (streams_of connections.new.items)) }
    ensures refused { IfErr result (λ fault.
        IsNotBegun fault c (streams_of connections.old.items) (streams_of connections.new.items)) }
{
    match place_of(connections.as_slice(), c) {
        Some(_) => return Err(BrokerFault::AlreadyThere),
        None => {}
    }
    if connections.len() >= MAX_CONNECTIONS {
        return Err(BrokerFault::TooMany);
    }
    let fresh = Kept::Open {
        run: None,
        rest: Vec::new(alloc),
    };
    match connections.push((c, fresh)) {
        Ok(()) => Ok(()),
        Err(_) => Err(BrokerFault::NoMemory),
    }
}

/// Takes a connection away.
#[tactic(auto, using(crate::proofs::Places::streams_below, crate::proofs::Places::at_place))]
pub(crate) fn end(connections: &mut Vec<Connection>, c: u32) -> Result<(), BrokerFault>
    ensures left { OnOk result (IsLeft c (streams_of connections.old.items) (streams_of connections.new.items)) }
    ensures refused { IfErr result (λ fault.
        IsNotLeft fault c (streams_of connections.old.items) (streams_of connections.new.items)) }
{
    match place_of(connections.as_slice(), c) {
        Some(place) => {
            remove_at(connections, place);
            Ok(())
        }
        None => Err(BrokerFault::NoSuchConnection),
    }
}
