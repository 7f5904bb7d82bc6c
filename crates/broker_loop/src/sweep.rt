//! All connections in turn.

ghost use Rattle.std.specs.Prelude.{◌≡◌, ◌≢◌, ◌<◌, ◌≤◌, ◌+◌, ◌++◌, ◌∷◌, [], List, ℕ, length, drop, take};
ghost use Rattle.broker_answers.specs.Servants.{acts};
ghost use Rattle.broker_answers.specs.Talk.{Leaves};
ghost use Rattle.iiop_broker.specs.Listed.{IsThere};
ghost use Rattle.broker_loop.specs.Visits.{Gone};
ghost use Rattle.broker_loop.specs.declared.listener.End.{End};
ghost use Rattle.broker_loop.specs.declared.slot.Course.TheVariants.{Over};
ghost use Rattle.broker_loop.specs.inner.Going.{GoesOn, IsUnderWay, WereAsked, place_behind};
ghost use Rattle.broker_loop.specs.inner.Turns.{IsHandedBack};

use crate::listener::{End, PolledListener};
use crate::slot::{Course, Slot, slot_turn};
use iiop_broker::{Broker, Event, Servant};

/// Lets go of a connection.
pub(crate) fn let_go<S: Servant, L: PolledListener>(
    broker: &mut Broker<S>,
    listener: &mut L,
    slot: Slot<L::Connection>,
    end: End,
)
    requires known { IsThere slot.number broker.old.world.there }
    requires there { 0 < L.there listener.old }
    ensures left { Leaves broker.old.world slot.number [] broker.new.world }
    ensures ended { (all : List (ℕ × Gone)) → L.ended listener.old all
        → (to : Gone) × IsHandedBack slot end (L.looks listener.old) to
        × L.ended listener.new (all ++ (slot.number, to) ∷ []) }
    ensures came { L.came listener.new ≡ L.came listener.old }
    ensures there { L.there listener.new + 1 ≡ L.there listener.old }
    ensures most { L.most listener.new ≡ L.most listener.old }
    ensures port { L.port listener.new ≡ L.port listener.old }
    ensures looks { L.looks listener.new ≡ L.looks listener.old }
    ensures same { broker.new.served ≡ broker.old.served }
{
    let number = slot.number();
    match broker.step(Event::End(number)) {
        Ok(_) => {}
        Err(_) => unreachable!(),
    }
    listener.hand_back(number, slot.into_connection(end), end);
}

/// Serves the connection at a place as far as it goes at once, and lets go of it where it is over.
fn sweep_slot<S: Servant, L: PolledListener>(
    broker: &mut Broker<S>,
    listener: &mut L,
    slots: &mut Vec<Slot<L::Connection>>,
    at: usize,
    buffer: &mut [u8],
    idle: u64,
) -> Course
    requires there { at < length slots.old.items }
    requires room { 0 < length buffer.old }
    requires filled { L.there listener.old ≡ length slots.old.items }
    requires under_way { IsUnderWay (L.ended listener.old) (acts S.says S.after) broker.old.served idle
        (L.came listener.old) broker.old.world slots.old.items }
    requires in_turn { WereAsked idle (L.looks listener.old + 1) (take at slots.old.items) }
    requires asked { WereAsked idle (L.looks listener.old) (drop at slots.old.items) }
    ensures going { (before : S)
        → GoesOn (L.ended listener.old) (acts S.says S.after) broker.old.served idle before
        (L.came listener.old) broker.old.world slots.old.items
        → GoesOn (L.ended listener.new) (acts S.says S.after) broker.old.served idle before
        (L.came listener.old) broker.new.world slots.new.items }
    ensures in_turn { WereAsked idle (L.looks listener.old + 1) (take (place_behind result at) slots.new.items) }
    ensures asked { WereAsked idle (L.looks listener.old) (drop (place_behind result at) slots.new.items) }
    ensures shorter { (end : End) → result ≡ Over end → length slots.new.items + 1 ≡ length slots.old.items }
    ensures as_many { ((end : End) → result ≢ Over end) → length slots.new.items ≡ length slots.old.items }
    ensures filled { L.there listener.new ≡ length slots.new.items }
    ensures came { L.came listener.new ≡ L.came listener.old }
    ensures most { L.most listener.new ≡ L.most listener.old }
    ensures port { L.port listener.new ≡ L.port listener.old }
    ensures looks { L.looks listener.new ≡ L.looks listener.old }
    ensures same { broker.new.served ≡ broker.old.served }
    ensures as_long { length buffer.new ≡ length buffer.old }
{
    let course = slot_turn(broker, listener, &mut slots[at], buffer, idle);
    if let Course::Over(end) = course {
        let slot = slots.remove(at);
        let_go(broker, listener, slot, end);
    }
    course
}

/// Serves each connection as far as it goes at once, and lets go of those that are over, also where a
/// limit is passed, unless that is 0: whether anything moved.
pub(crate) fn sweep<S: Servant, L: PolledListener>(
    broker: &mut Broker<S>,
    listener: &mut L,
    slots: &mut Vec<Slot<L::Connection>>,
    buffer: &mut [u8],
    idle: u64,
) -> bool
    requires room { 0 < length buffer.old }
    requires filled { L.there listener.old ≡ length slots.old.items }
    requires under_way { IsUnderWay (L.ended listener.old) (acts S.says S.after) broker.old.served idle
        (L.came listener.old) broker.old.world slots.old.items }
    requires asked { WereAsked idle (L.looks listener.old) slots.old.items }
    ensures going { (before : S)
        → GoesOn (L.ended listener.old) (acts S.says S.after) broker.old.served idle before
        (L.came listener.old) broker.old.world slots.old.items
        → GoesOn (L.ended listener.new) (acts S.says S.after) broker.old.served idle before
        (L.came listener.old) broker.new.world slots.new.items }
    ensures in_turn { WereAsked idle (L.looks listener.old + 1) slots.new.items }
    ensures fewer { length slots.new.items ≤ length slots.old.items }
    ensures filled { L.there listener.new ≡ length slots.new.items }
    ensures came { L.came listener.new ≡ L.came listener.old }
    ensures most { L.most listener.new ≡ L.most listener.old }
    ensures port { L.port listener.new ≡ L.port listener.old }
    ensures looks { L.looks listener.new ≡ L.looks listener.old }
    ensures same { broker.new.served ≡ broker.old.served }
    ensures as_long { length buffer.new ≡ length buffer.old }
{
    let mut moved = false;
    let mut at = 0;
    while at < slots.len() {
        match sweep_slot(broker, listener, slots, at, buffer, idle) {
            Course::Moved => {
                moved = true;
                at += 1;
            }
            Course::Still => at += 1,
            Course::Over(_) => moved = true,
        }
    }
    moved
}
