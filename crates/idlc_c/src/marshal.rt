//! Values by an accepted table, from a buffer of the caller's to another.

ghost use Rattle.std.specs.Prelude.{◌≡◌, ◌<◌, ◌≤◌, drop, length, take, IfErr, IfOk, OnErr};
ghost use Rattle.type_graph.specs.Words.{reading, writing};
ghost use Rattle.type_graph.specs.Encoding.{Means};
ghost use Rattle.type_model.specs.Names.{IsNamed};
ghost use Rattle.idlc_c.specs.declared.refusal.Refusal.TheVariants.{NoRoom};
ghost use Rattle.idlc_c.specs.Answers.{HasNoOctets, HasNoTape, HasOctets, HasTape, RefusesValue, TellsLength, order_of};

use crate::held::Held;
use crate::refusal::Refusal;
use type_graph::Order;

pub(crate) fn order(little: bool) -> Order
    ensures { result ≡ order_of little }
{
    if little { Order::Little } else { Order::Big }
}

/// Tells how long what was put into a buffer is, if there was room for it.
fn fitted(put: usize, room: usize, len: &mut usize) -> Result<(), Refusal>
    ensures done { IfOk result (λ _. (len.new ≡ put) × (put ≤ room)) }
    ensures refused { IfErr result (λ refusal. (refusal ≡ NoRoom put) × (room < put)) }
    ensures kept { OnErr result (len.new ≡ len.old) }
{
    if put > room {
        return Err(Refusal::NoRoom { needed: put });
    }
    *len = put;
    Ok(())
}

/// Writes the octets of a tape's value to the buffer, and tells how many they are.
pub(crate) fn encode(
    held: &mut Held,
    node: u32,
    order: Order,
    pos: u64,
    tape: &[u8],
    out: &mut [u8],
    len: &mut usize,
) -> Result<(), Refusal>
    ensures same { held.new ≡ held.old }
    ensures done { IfOk result (λ _.
        Means held.old.table.model.graph (writing order) 64 node pos tape.now (take len.new out.new)) }
    ensures within { IfOk result (λ _. len.new ≤ length out.old) }
    ensures behind { IfOk result (λ _. drop len.new out.new ≡ drop len.new out.old) }
    ensures refused { IfErr result (RefusesValue (IsNamed held.old.table.model.names node → ⊥)
        (TellsLength (λ len. HasOctets node order pos tape.now len held.old.table) (length out.old))
        (HasNoOctets node order pos tape.now held.old.table)) }
    ensures kept { OnErr result (out.new ≡ out.old) }
    ensures same_length { OnErr result (len.new ≡ len.old) }
{
    if !held.loaded().table.is_named(node) {
        return Err(Refusal::NotNamed);
    }
    let table = &held.shared.loaded.table;
    let answer = table.write_into(&mut held.room, node, order, pos, tape, out);
    held.trim_room();
    match answer {
        Ok(put) => fitted(put, out.len(), len),
        Err(fault) => Err(Refusal::NoValue(fault)),
    }
}

/// Writes the tape of the value that a front of the octets encodes to the buffer, and tells how
/// long it is, and how many octets that front has.
pub(crate) fn decode(
    held: &mut Held,
    node: u32,
    order: Order,
    pos: u64,
    octets: &[u8],
    taken: &mut usize,
    out: &mut [u8],
    len: &mut usize,
) -> Result<(), Refusal>
    ensures same { held.new ≡ held.old }
    ensures done { IfOk result (λ _.
        Means held.old.table.model.graph (reading order) 64 node pos (take len.new out.new) (take taken.new octets.now)) }
    ensures taken { IfOk result (λ _. taken.new ≤ length octets.now) }
    ensures within { IfOk result (λ _. len.new ≤ length out.old) }
    ensures behind { IfOk result (λ _. drop len.new out.new ≡ drop len.new out.old) }
    ensures refused { IfErr result (RefusesValue (IsNamed held.old.table.model.names node → ⊥)
        (TellsLength (λ len. HasTape node order pos octets.now len held.old.table) (length out.old))
        (HasNoTape node order pos octets.now held.old.table)) }
    ensures kept { OnErr result (out.new ≡ out.old) }
    ensures not_taken { OnErr result (taken.new ≡ taken.old) }
    ensures same_length { OnErr result (len.new ≡ len.old) }
{
    if !held.loaded().table.is_named(node) {
        return Err(Refusal::NotNamed);
    }
    let table = &held.shared.loaded.table;
    let answer = table.read_into(&mut held.room, node, order, pos, octets, out);
    held.trim_room();
    match answer {
        Ok((put, front)) => {
            fitted(put, out.len(), len)?;
            *taken = front;
            Ok(())
        }
        Err(fault) => Err(Refusal::NoValue(fault)),
    }
}
