//! Connections served at the same time.

ghost use Rattle.std.specs.Prelude.{◌≡◌, ◌<◌, ◌≤◌, ◌+◌, [], List, ℕ, true, length, max, IfErr, IfOk, None, OnErr, OnOk, if◌then◌else◌};
ghost use Rattle.broker_answers.specs.Connections.{at};
ghost use Rattle.broker_answers.specs.Servants.{acts};
ghost use Rattle.iiop_broker.specs.Outcomes.{Ends};
ghost use Rattle.broker_loop.specs.Visits.{AreServedBy};
ghost use Rattle.broker_loop.specs.declared.serving.Interruption.TheVariants.{Unaccepted, Endless};
ghost use Rattle.broker_loop.specs.inner.Going.{GoesOn, IsUnderWay, WereAsked};

use crate::listener::{End, PolledListener};
use crate::slot::{Slot, closed};
use crate::sweep::{let_go, sweep};
use iiop_broker::laws::steps_are_the_talk;
use iiop_broker::{Broker, BrokerFault, Event, MAX_ROOM, Servant};
use std::alloc::Global;

/// Why not all connections were served to their end.
#[derive(Clone, Copy, Debug, PartialEq, Eq)]
pub enum Interruption {
    /// No connection can come, and none is there.
    Unaccepted,
    /// All were asked as often as is allowed.
    Endless,
}

/// So often each connection is asked at most.
pub const MAX_SWEEPS: u64 = 18_446_744_073_709_551_615;

/// Has the next connection begin, if one comes: whether one came.
fn admit<S: Servant, L: PolledListener>(
    alloc: Global,
    broker: &mut Broker<S>,
    listener: &mut L,
    slots: &mut Vec<Slot<L::Connection>>,
    number: u32,
) -> Result<bool, Interruption>
    requires number { number ≡ length (L.came listener.old) }
    requires room { length broker.old.world.there < 64 }
    requires absent { at number broker.old.world.there ≡ None }
    requires filled { L.there listener.old ≡ length slots.old.items }
    ensures going { (idle : ℕ) (before : S)
        → GoesOn (L.ended listener.old) (acts S.says S.after) broker.old.served idle before
        (L.came listener.old) broker.old.world slots.old.items
        → GoesOn (L.ended listener.new) (acts S.says S.after) broker.old.served idle before
        (L.came listener.new) broker.new.world slots.new.items }
    ensures asked { (idle : ℕ) → WereAsked idle (L.looks listener.old) slots.old.items
        → WereAsked idle (L.looks listener.old) slots.new.items }
    ensures came { IfOk result (λ came. length (L.came listener.new) ≡ number + (if came then 1 else 0)) }
    ensures filled { OnOk result (L.there listener.new ≡ length slots.new.items) }
    ensures few { length slots.new.items ≤ length slots.old.items + 1 }
    ensures most { L.most listener.new ≤ max (L.most listener.old) (length slots.old.items + 1) }
    ensures port { L.port listener.new ≡ L.port listener.old }
    ensures cause { IfErr result (λ interruption. interruption ≡ Unaccepted) }
    ensures failed { OnErr result (L.failure listener.new ≡ true) }
    ensures nobody { OnErr result (L.there listener.new ≡ 0) }
    ensures looks { L.looks listener.new ≡ L.looks listener.old }
    ensures same { broker.new.served ≡ broker.old.served }
{
    let connection = match listener.accept() {
        Ok(Some(connection)) => connection,
        Ok(None) => return Ok(false),
        Err(_) => return Err(Interruption::Unaccepted),
    };
    match broker.step(Event::Begin(number)) {
        Ok(_) => {}
        Err(BrokerFault::NoMemory) => {
            listener.hand_back(number, closed(connection), End::GivenUp);
            return Ok(true);
        }
        Err(_) => unreachable!(),
    }
    if let Err(error) = slots.push(Slot::new(alloc, number, connection)) {
        let_go(broker, listener, error.value, End::GivenUp);
    }
    Ok(true)
}

/// How many connections have come and how many are to come, and how many of them are served at the
/// same time.
#[derive(Clone, Copy)]
struct Progress {
    begun: u32,
    count: u32,
    at_once: usize,
}

/// Has the next connection begin, if there is a place for one and it comes: whether one came.
fn admit_next<S: Servant, L: PolledListener>(
    alloc: Global,
    broker: &mut Broker<S>,
    listener: &mut L,
    slots: &mut Vec<Slot<L::Connection>>,
    progress: &mut Progress,
) -> Result<bool, Interruption>
    requires begun { progress.old.begun ≡ length (L.came listener.old) }
    requires upto { progress.old.begun ≤ progress.old.count }
    requires few { length slots.old.items ≤ progress.old.at_once }
    requires most { progress.old.at_once ≤ 64 }
    requires filled { L.there listener.old ≡ length slots.old.items }
    requires under_way { (idle : ℕ) × IsUnderWay (L.ended listener.old) (acts S.says S.after) broker.old.served idle
        (L.came listener.old) broker.old.world slots.old.items }
    ensures going { (idle : ℕ) (before : S)
        → GoesOn (L.ended listener.old) (acts S.says S.after) broker.old.served idle before
        (L.came listener.old) broker.old.world slots.old.items
        → GoesOn (L.ended listener.new) (acts S.says S.after) broker.old.served idle before
        (L.came listener.new) broker.new.world slots.new.items }
    ensures asked { (idle : ℕ) → WereAsked idle (L.looks listener.old) slots.old.items
        → WereAsked idle (L.looks listener.old) slots.new.items }
    ensures begun { OnOk result (progress.new.begun ≡ length (L.came listener.new)) }
    ensures upto { OnOk result (progress.new.begun ≤ progress.new.count) }
    ensures filled { OnOk result (L.there listener.new ≡ length slots.new.items) }
    ensures few { OnOk result (length slots.new.items ≤ progress.new.at_once) }
    ensures most { L.most listener.new ≤ max (L.most listener.old) progress.old.at_once }
    ensures port { L.port listener.new ≡ L.port listener.old }
    ensures count { progress.new.count ≡ progress.old.count }
    ensures at_once { progress.new.at_once ≡ progress.old.at_once }
    ensures cause { IfErr result (λ interruption. interruption ≡ Unaccepted) }
    ensures failed { OnErr result (L.failure listener.new ≡ true) }
    ensures nobody { OnErr result (L.there listener.new ≡ 0) }
    ensures looks { L.looks listener.new ≡ L.looks listener.old }
    ensures same { broker.new.served ≡ broker.old.served }
{
    if progress.begun == progress.count || slots.len() >= progress.at_once {
        return Ok(false);
    }
    let came = admit(alloc, broker, listener, slots, progress.begun)?;
    if came {
        progress.begun += 1;
    }
    Ok(came)
}

/// Serves so many connections, at most so many of them at the same time: what comes on each is
/// answered as the talk of all says, in the order in which it comes. A connection ends when all was
/// read, the broker closed it, a read or a write failed, memory was wanted for what came on it, or it
/// has passed a limit of so many milliseconds by the times that the listener told, unless they are 0;
/// the others go on. A limit is passed where nothing moved between messages, a message that was begun
/// isn't whole or an answer isn't taken for so long, whatever moved meanwhile. The time is told in each
/// round for each of them.
///
/// # Errors
/// `Unaccepted` where a connection can't be accepted and none is there. `Endless` after 2 ^ 64 - 1
/// rounds.
pub fn serve_at_once<S: Servant, L: PolledListener>(
    alloc: Global,
    broker: &mut Broker<S>,
    listener: &mut L,
    count: u32,
    at_once: usize,
    idle: u64,
) -> Result<(), Interruption>
    requires alone { broker.old.world.there ≡ [] }
    requires fresh { L.came listener.old ≡ [] }
    requires none { L.ended listener.old [] }
    requires empty { L.there listener.old ≡ 0 }
    requires unlooked { L.looks listener.old ≡ 0 }
    requires few { at_once ≤ 64 }
    ensures served { OnOk result
        (AreServedBy (L.ended listener.new) (acts S.says S.after) broker.old.served idle broker.old.world.servant
        (L.came listener.new) broker.new.world.servant) }
    ensures count { OnOk result (length (L.came listener.new) ≡ count) }
    ensures most { L.most listener.new ≤ max (L.most listener.old) at_once }
    ensures port { L.port listener.new ≡ L.port listener.old }
    ensures alone { OnOk result (broker.new.world.there ≡ []) }
    ensures failed { IfErr result (λ interruption. interruption ≡ Unaccepted → L.failure listener.new ≡ true) }
    ensures nobody { IfErr result (λ interruption. interruption ≡ Unaccepted → L.there listener.new ≡ 0) }
    ensures endless { IfErr result (λ interruption. interruption ≡ Endless
        → L.looks listener.new ≡ 18446744073709551615) }
    ensures same { broker.new.served ≡ broker.old.served }
{
    steps_are_the_talk::<S>();
    let mut slots = Vec::new(alloc);
    let mut buffer = [0u8; MAX_ROOM];
    let mut progress = Progress {
        begun: 0,
        count,
        at_once,
    };
    for _ in 0..MAX_SWEEPS {
        let came = admit_next(alloc, broker, listener, &mut slots, &mut progress)?;
        if progress.begun == count && slots.is_empty() {
            return Ok(());
        }
        let moved = sweep(broker, listener, &mut slots, &mut buffer, idle);
        listener.look(came | moved);
    }
    Err(Interruption::Endless)
}
