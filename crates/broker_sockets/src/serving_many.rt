//! An object served to many connections at the same time.

ghost use Rattle.std.specs.Prelude.{◌≡◌, ◌≤◌, ◌*◌, [], length, max, IfErr, OnOk, Some};
ghost use Rattle.std.specs.Io.KnownBytes.{Appends};
ghost use Rattle.broker_answers.specs.Servants.{acts};
ghost use Rattle.broker_loop.specs.Visits.{AreServedBy};
ghost use Rattle.broker_sockets.specs.Lines.{serving};
ghost use Rattle.broker_sockets.specs.Serving.{IsDoneTogether, IsFaultOf, IsHeardOrNothing, IsLineOrNothing, IsOfObject};

use crate::announcing::announce;
use crate::fault::ServeFault;
use crate::object::broker_of;
use crate::options::ServeOptions;
use broker_loop::{PolledListener, serve_at_once};
use iiop_broker::{Broker, Servant};
use position_checker::Accepted;
use std::alloc::Global;
use std::io::Write;

/// So many connections have a place at the same time.
fn places(at_once: u8) -> usize
    ensures few { result ≤ 64 }
    ensures within { 1 ≤ at_once → result ≤ at_once }
{
    match at_once {
        0 => 1,
        1..=64 => usize::from(at_once),
        _ => 64,
    }
}

/// Listens, says so, and serves connections by a broker. It stands apart from the function that owns
/// the broker, of which the prover then sees nothing here but the contract.
fn serve_by<'a, S: Servant, L: PolledListener, W: Write>(
    alloc: Global,
    broker: &mut Broker<S>,
    listener: &mut L,
    out: &mut W,
    options: &ServeOptions<'_>,
    places: usize,
    idle: u64,
) -> Result<(), ServeFault<'a>>
    requires alone { broker.old.world.there ≡ [] }
    requires fresh { L.came listener.old ≡ [] }
    requires none { L.ended listener.old [] }
    requires empty { L.there listener.old ≡ 0 }
    requires unlooked { L.looks listener.old ≡ 0 }
    requires few { places ≤ 64 }
    ensures done { OnOk result
        (AreServedBy (L.ended listener.new) (acts S.says S.after) broker.old.served idle broker.old.world.servant
        (L.came listener.new) broker.new.world.servant) }
    ensures count { OnOk result (length (L.came listener.new) ≡ options.now.connections) }
    ensures most { L.most listener.new ≤ max (L.most listener.old) places }
    ensures listens { OnOk result (L.port listener.new ≡ Some options.now.port) }
    ensures printed { OnOk result (Appends (W.contents out.old) (W.contents out.new) (serving options.now.port)) }
    ensures printing { IfErr result (IsLineOrNothing options.now.port (W.contents out.old) (W.contents out.new)) }
    ensures heard { IfErr result
        (IsHeardOrNothing options.now.port (L.port listener.new) (W.contents out.old) (W.contents out.new)) }
    ensures later { IfErr result (λ fault. IsOfObject fault → ⊥) }
{
    announce(alloc, listener, out, options.port)?;
    serve_at_once(alloc, broker, listener, options.connections, places, idle)?;
    Ok(())
}

/// Serves an object of a table's interface to connections that a listener has come, at most so many
/// at the same time, and prints `serving` and the port once it listens. A connection that breaks off
/// or is idle for too long counts as one that ends well.
///
/// # Errors
/// `BadObject` and `NoInterface` before anything is listened on. `Socket` where the port can't be
/// listened on or a connection can't be accepted, `Unwritten` where the line can't be printed.
/// Want of memory before anything is served.
pub fn serve_table_at_once<'a, L: PolledListener, W: Write>(
    alloc: Global,
    listener: &mut L,
    out: &mut W,
    table: Accepted,
    options: &ServeOptions<'a>,
    at_once: u8,
) -> Result<(), ServeFault<'a>>
    requires fresh { L.came listener.old ≡ [] }
    requires none { L.ended listener.old [] }
    requires empty { L.there listener.old ≡ 0 }
    requires unlooked { L.looks listener.old ≡ 0 }
    ensures done { OnOk result
        (IsDoneTogether (L.ended listener.new) table.model options.now.object.now (options.now.idle * 1000)
        (L.came listener.new)) }
    ensures count { OnOk result (length (L.came listener.new) ≡ options.now.connections) }
    ensures most { 1 ≤ at_once → L.most listener.new ≤ max (L.most listener.old) at_once }
    ensures listens { OnOk result (L.port listener.new ≡ Some options.now.port) }
    ensures printed { OnOk result (Appends (W.contents out.old) (W.contents out.new) (serving options.now.port)) }
    ensures refused { IfErr result (IsFaultOf table.model options.now.object.now) }
    ensures printing { IfErr result (IsLineOrNothing options.now.port (W.contents out.old) (W.contents out.new)) }
    ensures heard { IfErr result
        (IsHeardOrNothing options.now.port (L.port listener.new) (W.contents out.old) (W.contents out.new)) }
    ensures silent { IfErr result (λ fault. IsOfObject fault → out.new ≡ out.old) }
    ensures deaf { IfErr result (λ fault. IsOfObject fault → listener.new ≡ listener.old) }
{
    let mut broker = broker_of(alloc, table, options.object)?;
    let idle = u64::from(options.idle) * 1000;
    serve_by(
        alloc,
        &mut broker,
        listener,
        out,
        options,
        places(at_once),
        idle,
    )
}
