//! Messages put together.

ghost use Rattle.std.specs.Prelude.{◌≡◌, ◌≤◌, ◌<◌, ◌+◌, ◌++◌, ℕ, List, length, replicate, IfOk, IfErr, IfSome, IfNone, IsTrue, OnOk};
ghost use Rattle.std.specs.Option.{ForSome};
ghost use Rattle.type_graph.specs.declared.width.Width.TheVariants.{Four};
ghost use Rattle.type_graph.specs.Words.{plain_word};
ghost use Rattle.type_model.specs.Names.{IsNamed};
ghost use Rattle.giop_messages.specs.Heads.{max_size};
ghost use Rattle.giop_types.specs.Named.{has_name};
ghost use Rattle.giop_messages.specs.declared.fault.GiopFault.TheVariants.{TooLong};
ghost use Rattle.giop_messages.specs.Written.{flags_of, head_octets};
ghost use Rattle.giop.specs.Made.{given_by, IsMade, IsNotMade};

use crate::writing::body::Body;
use giop_messages::{GiopFault, HEAD_LEN, MAX_SIZE};
use giop_types::GiopTypes;
use program_runner::RunFault;
use std::alloc::{AllocError, Global};
use type_graph::Order;

/// A message that is written: its byte order and its type, and the types by which its header is
/// written.
#[derive(Clone, Copy)]
pub(crate) struct Writing<'w> {
    pub(crate) types: &'w GiopTypes,
    pub(crate) alloc: Global,
    pub(crate) order: Order,
    /// The number of its type.
    pub(crate) kind: u8,
    /// The node of its header.
    pub(crate) node: u32,
}

/// From how many octets on a body stays in the list into which it was written, and what stands
/// before it is put there: a copy into a list of its own would cost more.
const LARGE: usize = 16_384;

/// The flags that tell a byte order.
fn flags(order: Order) -> u8
    ensures { result ≡ flags_of order }
{
    match order {
        Order::Big => 0,
        Order::Little => 1,
    }
}

/// The octets of a number.
fn word(order: Order, n: u32) -> [u8; 4]
    ensures { result ≡ plain_word order Four n }
{
    match order {
        Order::Big => n.to_be_bytes(),
        Order::Little => n.to_le_bytes(),
    }
}

/// Puts the head of a message behind octets.
pub(crate) fn push_head(
    octets: &mut Vec<u8>,
    order: Order,
    kind: u8,
    size: u32,
) -> Result<(), AllocError>
    ensures { OnOk result (octets.new.items ≡ octets.old.items ++ head_octets order kind size) }
{
    octets.extend_from_slice(&[b'G', b'I', b'O', b'P', 1, 2, flags(order), kind])?;
    octets.extend_from_slice(&word(order, size))
}

/// How many octets a header and what stands behind it are.
fn size_of(header: &[u8], gap: usize, body: &[u8]) -> Option<u32>
    requires { gap < 8 }
    ensures found { IfSome result (λ size. size ≡ length header.now + (gap + length body.now)) }
    ensures limited { IfSome result (λ size. size ≤ max_size) }
    ensures refused { IfNone result (max_size < length header.now + (gap + length body.now)) }
{
    let limit = MAX_SIZE as usize;
    if header.len() > limit || gap + body.len() > limit - header.len() {
        return None;
    }
    Some((header.len() + (gap + body.len())) as u32)
}

/// How many octets behind the head of a message of this size are put into a list of their own: a
/// large body stays in the list into which it was written.
fn room_of(size: u32, body: &[u8]) -> usize
    ensures { result ≤ size }
{
    if body.len() < LARGE {
        size as usize
    } else {
        (size as usize).saturating_sub(body.len())
    }
}

/// Puts octets before others, in the list of these.
fn put_before(mut octets: Vec<u8>, front: Vec<u8>) -> Result<Vec<u8>, AllocError>
    ensures { IfOk result (λ all. all.items ≡ front.items ++ octets.items) }
{
    octets.reserve_exact(front.len())?;
    octets.splice(0..0, front)?;
    Ok(octets)
}

impl<'w> Writing<'w> {
    /// Head, header, a gap and a body.
    fn joined(
        &self,
        size: u32,
        header: &[u8],
        gap: usize,
        body: Vec<u8>,
    ) -> Result<Vec<u8>, AllocError>
        requires gap { gap < 8 }
        requires size { size ≤ max_size }
        ensures { IfOk result (λ octets. octets.items
            ≡ head_octets self.now.order self.now.kind size ++ (header.now ++ (replicate gap 0 ++ body.items))) }
    {
        let room = room_of(size, body.as_slice());
        let mut octets = Vec::with_capacity(self.alloc, HEAD_LEN + room)?;
        push_head(&mut octets, self.order, self.kind, size)?;
        octets.extend_from_slice(header)?;
        octets.extend_from_slice(&[0; 8][..gap])?;
        if body.len() >= LARGE {
            return put_before(body, octets);
        }
        octets.extend_from_slice(body.as_slice())?;
        Ok(octets)
    }

    /// The message whose header has this tape.
    pub(crate) fn write(&self, tape: &[u8], body: Option<Body<'_>>) -> Result<Vec<u8>, GiopFault>
        requires header { IsTrue (has_name self.now.node) }
        requires named { ForSome body (λ b. IsNamed b.0.now.model.names b.1) }
        ensures made { IfOk result (λ octets.
            IsMade self.now.order self.now.kind self.now.node tape.now (given_by body.entry) octets.items) }
        ensures limited { IfOk result (λ octets. length octets.items ≤ 12 + max_size) }
        ensures refused { IfErr result (λ fault.
            IsNotMade fault self.now.order self.now.kind self.now.node tape.now (given_by body.entry)) }
    {
        let order = self.order;
        let header = match self
            .types
            .write(self.alloc, self.node, order, HEAD_LEN as u64, tape)
        {
            Ok(header) => header,
            Err(fault) => match fault {
                RunFault::NoMemory => return Err(GiopFault::NoMemory),
                _ => return Err(GiopFault::BadHead),
            },
        };
        let (gap, body) = match self.after_header(HEAD_LEN + header.as_slice().len(), body) {
            Ok(behind) => behind,
            Err(fault) => return Err(fault),
        };
        let Some(size) = size_of(header.as_slice(), gap, body.as_slice()) else {
            return Err(GiopFault::TooLong);
        };
        match self.joined(size, header.as_slice(), gap, body) {
            Ok(octets) => Ok(octets),
            Err(_) => Err(GiopFault::NoMemory),
        }
    }
}
