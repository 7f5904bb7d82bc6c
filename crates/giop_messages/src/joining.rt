//! How the pieces of a message join.

ghost use Rattle.std.specs.Prelude.{◌≡◌, ◌≤◌, ◌-◌, ◌+◌, ◌++◌, true, length, take, drop, IfOk, OnOk, OnErr};
ghost use Rattle.type_graph.specs.declared.width.Width.TheVariants.{Four};
ghost use Rattle.type_graph.specs.Words.{plain_word};
ghost use Rattle.giop_messages.specs.Heads.{flags_in, goes_on, max_size};
ghost use Rattle.giop_messages.specs.Framing.{added, begun, sized, breaks_run as breaks_this, same_order as are_same};

use crate::head::{HEAD_LEN, Head, MAX_SIZE, order_in};
use byteorder::{BigEndian, ByteOrder, LittleEndian};
use std::alloc::{AllocError, Global};
use type_graph::Order;

/// Where the octets begin that a fragment brings.
const FRAGMENT_HEAD_LEN: usize = 16;

fn same_order(one: Order, other: Order) -> bool
    ensures { result ≡ are_same one other }
{
    match (one, other) {
        (Order::Big, Order::Big) => true,
        (Order::Little, Order::Little) => true,
        _ => false,
    }
}

/// Writes a number over the first four octets.
fn put(order: Order, out: &mut [u8], n: u32)
    requires { 4 ≤ length out.old }
    ensures { out.new ≡ plain_word order Four n ++ drop 4 out.old }
{
    match order {
        Order::Big => BigEndian::write_u32(out, n),
        Order::Little => LittleEndian::write_u32(out, n),
    }
}

/// Writes a size over that of a message.
fn put_size(message: &mut Vec<u8>, order: Order, size: u32)
    requires { 12 ≤ length message.old.items }
    ensures { message.new.items
        ≡ take 8 message.old.items ++ (plain_word order Four size ++ drop 12 message.old.items) }
{
    put(order, message.slice_mut(8..), size);
}

/// Gives a message the size that its octets have.
fn renew_size(message: &mut Vec<u8>)
    requires long { 12 ≤ length message.old.items }
    requires short { length message.old.items ≤ 12 + max_size }
    ensures { message.new.items ≡ sized message.old.items }
{
    let order = order_in(message[6]);
    let size = message.as_slice().len() - HEAD_LEN;
    put_size(message, order, size as u32);
}

/// The message that a first piece would be if nothing more came.
///
/// # Errors
/// Want of memory.
pub fn begin_run(alloc: Global, first: &[u8]) -> Result<Vec<u8>, AllocError>
    requires long { 12 ≤ length first.now }
    requires goes_on { goes_on (flags_in first.now) ≡ true }
    ensures { IfOk result (λ run. run.items ≡ begun first.now) }
{
    let mut run = first.to_vec(alloc)?;
    run[6] -= 2;
    Ok(run)
}

/// Adds the next piece, which may be none that its reader refuses.
///
/// # Errors
/// Want of memory, and then the run is as it was.
pub fn add_piece(run: &mut Vec<u8>, fragment: &[u8]) -> Result<(), AllocError>
    requires long { 12 ≤ length run.old.items }
    requires numbered { 16 ≤ length fragment.now }
    requires limited { length run.old.items + (length fragment.now - 16) ≤ 12 + max_size }
    ensures added { OnOk result (run.new.items ≡ added run.old.items fragment.now) }
    ensures kept { OnErr result (run.new.items ≡ run.old.items) }
{
    run.extend_from_slice(&fragment[FRAGMENT_HEAD_LEN..])?;
    renew_size(run);
    Ok(())
}

/// Whether a fragment breaks a rule of a run: of its order, its place or its size.
pub fn breaks_run(run: &[u8], head: &Head) -> bool
    requires long { 12 ≤ length run.now }
    requires limited { head.now.size ≤ max_size }
    ensures { result ≡ breaks_this run.now head.now }
{
    if !same_order(order_in(run[6]), head.order) || head.is_cut() {
        return true;
    }
    run.len() - HEAD_LEN + (head.size as usize - 4) > MAX_SIZE as usize
}
