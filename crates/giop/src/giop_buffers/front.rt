//! What is told of the front of a stream.

ghost use Rattle.std.specs.Prelude.{◌≡◌, ◌≤◌, ◌++◌, drop, length, option_map, take, None, IfErr, IfOk, OnErr, OnOk};
ghost use Rattle.giop.specs.Fronts.{IsRefused};
ghost use Rattle.giop_messages.specs.Messages.{content_of};
ghost use Rattle.giop.specs.GiopBuffersFronts.{HasTexts, IsTold, bare, is_little, key_octets, piece_detail, said, texts_of, told_of};
ghost use Rattle.giop.specs.Messages.{Refuses};

use crate::giop_buffers::buffer::put;
use crate::giop_buffers::fault::BufferFault;
use crate::{Front, Giop, GiopFault, Message};
use std::alloc::{AllocError, Global};
use type_graph::Order;

/// What stands at the front of a stream. What doesn't belong to it is 0 or false.
#[repr(C)]
#[derive(Drop)]
pub struct MessageFront {
    /// The number of the type of the message: 0 request, 1 reply, 2 cancel request, 3 locate request,
    /// 5 close connection, 6 message error; 7 a piece of a request that comes in fragments; 8 where no
    /// whole message is there yet.
    pub kind: u32,
    pub id: u32,
    /// The response flags of a request, the status of a reply; of a piece 1 where it is the first and
    /// 2 where it is the last.
    pub detail: u32,
    /// The byte order of the body.
    pub little: bool,
    /// The target of the request tells the object's key.
    pub has_key: bool,
    /// How many octets it has.
    pub taken: usize,
    /// Where its body stands, counted from its first octet.
    pub body_at: usize,
    pub key_len: usize,
    pub operation_len: usize,
}

fn little(order: Order) -> bool
    ensures { result ≡ is_little order }
{
    match order {
        Order::Big => false,
        Order::Little => true,
    }
}

fn octets_of(key: &Option<Vec<u8>>) -> &[u8]
    ensures { result.now ≡ key_octets (option_map (λ k. k.items) key.now) }
{
    match key {
        Some(key) => key.as_slice(),
        None => &[],
    }
}

fn detail_of(first: bool, last: bool) -> u32
    ensures { result ≡ piece_detail first last }
{
    match (first, last) {
        (true, true) => 3,
        (true, false) => 1,
        (false, true) => 2,
        (false, false) => 0,
    }
}

impl MessageFront {
    /// A message that says nothing else than its type.
    fn bare(kind: u32, taken: usize) -> MessageFront
        ensures { result ≡ bare kind taken }
    {
        MessageFront {
            kind,
            id: 0,
            detail: 0,
            little: false,
            has_key: false,
            taken,
            body_at: 0,
            key_len: 0,
            operation_len: 0,
        }
    }

    fn of_message(message: &Message<'_>, taken: usize) -> MessageFront
        ensures { result ≡ said (content_of message.now) taken }
    {
        let mut told = MessageFront::bare(0, taken);
        match message {
            Message::Request(request) => {
                told.id = request.id;
                told.detail = request.flags as u32;
                told.little = little(request.order);
                told.has_key = request.key.is_some();
                told.body_at = request.body_at;
                told.key_len = octets_of(&request.key).len();
                told.operation_len = request.operation.len();
            }
            Message::Reply(reply) => {
                told.kind = 1;
                told.id = reply.id;
                told.detail = reply.status.number();
                told.little = little(reply.order);
                told.body_at = reply.body_at;
            }
            Message::Cancel(id) => {
                told.kind = 2;
                told.id = *id;
            }
            Message::Locate(locate) => {
                told.kind = 3;
                told.id = locate.id;
                told.little = little(locate.order);
                told.has_key = locate.key.is_some();
                told.key_len = octets_of(&locate.key).len();
            }
            Message::CloseConnection => told.kind = 5,
            Message::MessageError => told.kind = 6,
        }
        told
    }

    fn of(front: &Front<'_>) -> MessageFront
        ensures { result ≡ told_of front.now }
    {
        match front {
            Front::More => MessageFront::bare(8, 0),
            Front::Whole { message, taken } => MessageFront::of_message(message, *taken),
            Front::Part {
                id,
                first,
                last,
                taken,
            } => MessageFront {
                id: *id,
                detail: detail_of(*first, *last),
                ..MessageFront::bare(7, *taken)
            },
        }
    }
}

/// The key and the operation, one behind the other.
fn texts_of(alloc: Global, front: &Front<'_>) -> Result<Vec<u8>, AllocError>
    ensures { IfOk result (λ texts. texts.items ≡ texts_of front.now) }
{
    let mut texts = Vec::new(alloc);
    match front {
        Front::Whole {
            message: Message::Request(request),
            ..
        } => {
            texts.extend_from_slice(octets_of(&request.key))?;
            texts.extend_from_slice(request.operation.as_slice())?;
        }
        Front::Whole {
            message: Message::Locate(locate),
            ..
        } => texts.extend_from_slice(octets_of(&locate.key))?,
        _ => {}
    }
    Ok(texts)
}

/// Tells what stands at the front of a stream of which no run of fragments is open, and puts the key
/// and the operation of a request to the front of the buffer, one behind the other; answers how many
/// octets these have.
///
/// # Errors
/// As `read_message` of giop, or `NoRoom`. What is told and the buffer are then as they were.
pub fn read_message(
    giop: &Giop,
    alloc: Global,
    octets: &[u8],
    told: &mut MessageFront,
    out: &mut [u8],
) -> Result<usize, BufferFault>
    ensures told { IfOk result (λ len. IsTold octets.now told.new (take len out.new)) }
    ensures within { IfOk result (λ len. len ≤ length out.old) }
    ensures behind { IfOk result (λ len. drop len out.new ≡ drop len out.old) }
    ensures refused { IfErr result (Refuses (HasTexts octets.now) (length out.old) (IsRefused None octets.now)) }
    ensures untold { OnErr result (told.new ≡ told.old) }
    ensures kept { OnErr result (out.new ≡ out.old) }
{
    let front = match giop.read_message(alloc, octets) {
        Ok(front) => front,
        Err(fault) => return Err(BufferFault::Refused(fault)),
    };
    let texts = match texts_of(alloc, &front) {
        Ok(texts) => texts,
        Err(_) => return Err(BufferFault::Refused(GiopFault::NoMemory)),
    };
    match put(texts.as_slice(), out) {
        Ok(len) => {
            *told = MessageFront::of(&front);
            Ok(len)
        }
        Err(needed) => Err(BufferFault::NoRoom { needed }),
    }
}
