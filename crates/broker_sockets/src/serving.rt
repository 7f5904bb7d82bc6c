//! An object served.

ghost use Rattle.std.specs.Prelude.{◌≡◌, ◌*◌, [], ⊤, replicate, IfErr, IfOk, OnOk, Some};
ghost use Rattle.std.specs.Io.KnownBytes.{Appends};
ghost use Rattle.broker_answers.specs.Servants.{acts};
ghost use Rattle.broker_sockets.specs.Lines.{serving};
ghost use Rattle.broker_sockets.specs.Serving.{IsDone, IsDoneTogether, IsFaultOf, IsHeardOrNothing, IsLineOrNothing, IsOfObject, IsServed, places_of};
ghost use Rattle.broker_sockets.specs.Visits.{AreServed, untold};

use crate::announcing::announce;
use crate::connections::serve_connections;
use crate::fault::ServeFault;
use crate::listener::BlockingListener;
use crate::loopback::Loopback;
use crate::memory::keep_memory;
use crate::object::broker_of;
use crate::options::ServeOptions;
use crate::polled_loopback::PolledLoopback;
use crate::serving_many::serve_table_at_once;
use crate::totals::Totals;
use iiop_broker::{Broker, Servant};
use position_checker::Accepted;
use std::alloc::Global;
use std::io::Write;
use std::net::Net;
use std::time::Clock;

/// Listens, says so, and serves connections by a broker. It stands apart from the function that owns the broker, of which
/// the prover then sees nothing here but the contract.
fn serve_by<'a, S: Servant, L: BlockingListener, W: Write>(
    alloc: Global,
    broker: &mut Broker<S>,
    listener: &mut L,
    out: &mut W,
    options: &ServeOptions<'_>,
) -> Result<(), ServeFault<'a>>
    requires alone { broker.old.world.there ≡ [] }
    requires none { L.went listener.old [] }
    ensures done { OnOk result
        (AreServed (L.went listener.new) (acts S.says S.after) broker.old.served options.now.connections
        (L.came listener.old) broker.old.world.servant (L.came listener.new) broker.new.world.servant) }
    ensures listens { OnOk result (L.port listener.new ≡ Some options.now.port) }
    ensures printed { OnOk result (Appends (W.contents out.old) (W.contents out.new) (serving options.now.port)) }
    ensures printing { IfErr result (IsLineOrNothing options.now.port (W.contents out.old) (W.contents out.new)) }
    ensures heard { IfErr result
        (IsHeardOrNothing options.now.port (L.port listener.new) (W.contents out.old) (W.contents out.new)) }
    ensures later { IfErr result (λ fault. IsOfObject fault → ⊥) }
{
    announce(alloc, listener, out, options.port)?;
    serve_connections(broker, listener, options.connections)?;
    Ok(())
}

/// Serves an object of a table's interface to connections that a listener has come, one after the
/// other, and prints `serving` and the port once it listens. The object's attributes last from one
/// connection to the next. A connection that breaks off counts as one that ends well.
///
/// # Errors
/// `BadObject` and `NoInterface` before anything is listened on. `Socket` where the port can't be
/// listened on or a connection can't be accepted, `Unwritten` where the line can't be printed.
/// Want of memory.
pub fn serve_table<'a, L: BlockingListener, W: Write>(
    alloc: Global,
    listener: &mut L,
    out: &mut W,
    table: Accepted,
    options: &ServeOptions<'a>,
) -> Result<(), ServeFault<'a>>
    requires none { L.went listener.old [] }
    ensures done { OnOk result
        (IsDone (L.went listener.new) table.model options.now.object.now options.now.connections
        (L.came listener.old) (L.came listener.new)) }
    ensures listens { OnOk result (L.port listener.new ≡ Some options.now.port) }
    ensures printed { OnOk result (Appends (W.contents out.old) (W.contents out.new) (serving options.now.port)) }
    ensures refused { IfErr result (IsFaultOf table.model options.now.object.now) }
    ensures printing { IfErr result (IsLineOrNothing options.now.port (W.contents out.old) (W.contents out.new)) }
    ensures heard { IfErr result
        (IsHeardOrNothing options.now.port (L.port listener.new) (W.contents out.old) (W.contents out.new)) }
    ensures silent { IfErr result (λ fault. IsOfObject fault → out.new ≡ out.old) }
    ensures deaf { IfErr result (λ fault. IsOfObject fault → listener.new ≡ listener.old) }
{
    let mut broker = broker_of(alloc, table, options.object)?;
    serve_by(alloc, &mut broker, listener, out, options)
}

/// The same on TCP, to connections to 127.0.0.1, which tell nothing of what they carry.
///
/// # Errors
/// As `serve_table`.
fn serve_in_turn<'a, R: Net + Clock + Eprint + AllocGlobal, W: Write>(
    rt: &R,
    out: &mut W,
    table: Accepted,
    options: &ServeOptions<'a>,
) -> Result<Totals, ServeFault<'a>>
    ensures done { OnOk result
        (IsDone (λ gone. ⊤) table.model options.now.object.now options.now.connections []
        (replicate options.now.connections untold)) }
    ensures printed { OnOk result (Appends (W.contents out.old) (W.contents out.new) (serving options.now.port)) }
    ensures counted { IfOk result (λ totals. totals.connections ≡ options.now.connections) }
    ensures refused { IfErr result (IsFaultOf table.model options.now.object.now) }
    ensures printing { IfErr result (IsLineOrNothing options.now.port (W.contents out.old) (W.contents out.new)) }
    ensures silent { IfErr result (λ fault. IsOfObject fault → out.new ≡ out.old) }
{
    let mut loopback = Loopback::new(rt);
    serve_table(rt.alloc(), &mut loopback, out, table, options)?;
    Ok(loopback.totals().of(options.connections))
}

/// At most so many of them at the same time.
///
/// # Errors
/// As `serve_table_at_once`.
fn serve_many<'a, R: Net + Clock + Eprint + AllocGlobal, W: Write>(
    rt: &R,
    out: &mut W,
    table: Accepted,
    options: &ServeOptions<'a>,
    at_once: u8,
) -> Result<Totals, ServeFault<'a>>
    ensures done { OnOk result (IsDoneTogether (λ ended. ⊤) table.model options.now.object.now
        (options.now.idle * 1000) (replicate options.now.connections untold)) }
    ensures printed { OnOk result (Appends (W.contents out.old) (W.contents out.new) (serving options.now.port)) }
    ensures counted { IfOk result (λ totals. totals.connections ≡ options.now.connections) }
    ensures refused { IfErr result (IsFaultOf table.model options.now.object.now) }
    ensures printing { IfErr result (IsLineOrNothing options.now.port (W.contents out.old) (W.contents out.new)) }
    ensures silent { IfErr result (λ fault. IsOfObject fault → out.new ≡ out.old) }
{
    let mut loopback = PolledLoopback::new(rt, rt.alloc())?;
    serve_table_at_once(rt.alloc(), &mut loopback, out, table, options, at_once)?;
    Ok(loopback.finish().of(options.connections))
}

/// How many are served at the same time at most. With calls that wait, one that is idle can't end.
fn places_in(options: &ServeOptions<'_>) -> Option<u8>
    ensures { result ≡ places_of options.now.at_once options.now.idle }
{
    match options.at_once {
        Some(at_once) => Some(at_once),
        None if options.idle == 0 => None,
        None => Some(1),
    }
}

/// Serves an object on TCP, to connections to 127.0.0.1, which tell nothing of what they carry: one
/// after the other, or at the same time.
///
/// # Errors
/// As `serve_table`.
pub fn serve<'a, R: Net + Clock + Eprint + AllocGlobal, W: Write>(
    rt: &R,
    out: &mut W,
    table: Accepted,
    options: &ServeOptions<'a>,
) -> Result<Totals, ServeFault<'a>>
    ensures done { OnOk result
        (IsServed table.model options.now.object.now (places_of options.now.at_once options.now.idle)
        options.now.idle options.now.connections) }
    ensures printed { OnOk result (Appends (W.contents out.old) (W.contents out.new) (serving options.now.port)) }
    ensures counted { IfOk result (λ totals. totals.connections ≡ options.now.connections) }
    ensures refused { IfErr result (IsFaultOf table.model options.now.object.now) }
    ensures printing { IfErr result (IsLineOrNothing options.now.port (W.contents out.old) (W.contents out.new)) }
    ensures silent { IfErr result (λ fault. IsOfObject fault → out.new ≡ out.old) }
{
    keep_memory(rt.alloc());
    match places_in(options) {
        None => serve_in_turn(rt, out, table, options),
        Some(at_once) => serve_many(rt, out, table, options, at_once),
    }
}
