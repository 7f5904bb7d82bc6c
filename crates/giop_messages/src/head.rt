//! Heads of messages.

ghost use Rattle.std.specs.Prelude.{◌≡◌, ◌≤◌, length, drop, slice_get, slice_index, Option};
ghost use Rattle.giop_messages.specs.Heads.{flags_in, goes_on as goes_on_of, head_in, is_1_2 as is_1_2_in, is_giop as is_giop_in, kinds, max_size, may_go_on, number_in, order_of, size_in as size_of, typed};
ghost use Rattle.giop_messages.specs.Framing.{is_cut, is_fragment};

use crate::fault::FramingFault;
use byteorder::{BigEndian, ByteOrder, LittleEndian};
use type_graph::Order;

/// So many octets a head has.
pub const HEAD_LEN: usize = 12;

/// So many octets stand behind a head at most.
pub const MAX_SIZE: u32 = 1_048_576;

/// What a message is (ISO/IEC 19500-2, GIOP message header: message_type).
#[derive(Clone, Copy, Debug, PartialEq, Eq)]
pub enum MessageKind {
    Request,
    Reply,
    CancelRequest,
    LocateRequest,
    LocateReply,
    CloseConnection,
    MessageError,
    Fragment,
}

/// What the head of a message says.
#[derive(Clone, Copy, Debug, PartialEq, Eq)]
pub struct Head {
    pub kind: MessageKind,
    pub order: Order,
    /// Fragments follow.
    pub goes_on: bool,
    /// How many octets stand behind the head.
    pub size: u32,
}

impl MessageKind {
    /// The type of a number.
    fn of(number: u8) -> Option<MessageKind>
        ensures { result ≡ slice_get kinds number }
    {
        match number {
            0 => Some(MessageKind::Request),
            1 => Some(MessageKind::Reply),
            2 => Some(MessageKind::CancelRequest),
            3 => Some(MessageKind::LocateRequest),
            4 => Some(MessageKind::LocateReply),
            5 => Some(MessageKind::CloseConnection),
            6 => Some(MessageKind::MessageError),
            7 => Some(MessageKind::Fragment),
            _ => None,
        }
    }

    /// Whether fragments may follow.
    fn may_go_on(self) -> bool
        ensures { result ≡ may_go_on self }
    {
        matches!(self, MessageKind::Request | MessageKind::Fragment)
    }
}

/// Whether the letters stand at the front.
pub fn is_giop(octets: &[u8]) -> bool
    requires { 12 ≤ length octets.now }
    ensures { result ≡ is_giop_in octets.now }
{
    octets[0] == b'G' && octets[1] == b'I' && octets[2] == b'O' && octets[3] == b'P'
}

fn is_1_2(octets: &[u8]) -> bool
    requires { 12 ≤ length octets.now }
    ensures { result ≡ is_1_2_in octets.now }
{
    octets[4] == 1 && octets[5] == 2
}

/// The order that the flags tell.
pub(crate) fn order_in(flags: u8) -> Order
    ensures { result ≡ order_of flags }
{
    if flags % 2 == 1 {
        Order::Little
    } else {
        Order::Big
    }
}

/// The unsigned number of four octets at the front.
pub fn number(order: Order, octets: &[u8]) -> u32
    requires { 4 ≤ length octets.now }
    ensures { result ≡ number_in order 4 octets.now }
{
    match order {
        Order::Big => BigEndian::read_u32(octets),
        Order::Little => LittleEndian::read_u32(octets),
    }
}

/// How many octets stand behind the head at the front.
pub fn size_in(octets: &[u8]) -> u32
    requires { 12 ≤ length octets.now }
    ensures { result ≡ size_of octets.now }
{
    number(order_in(octets[6]), &octets[8..])
}

fn typed_head(octets: &[u8], size: u32) -> Result<Head, FramingFault>
    requires { 12 ≤ length octets.now }
    ensures { result ≡ typed (flags_in octets.now) size (slice_get kinds (slice_index octets.now 7)) }
{
    let flags = octets[6];
    let goes_on = flags / 2 % 2 == 1;
    match MessageKind::of(octets[7]) {
        Some(kind) if !goes_on || kind.may_go_on() => Ok(Head {
            kind,
            order: order_in(flags),
            goes_on,
            size,
        }),
        _ => Err(FramingFault::BadHead),
    }
}

impl Head {
    /// Whether it is that of a later piece of a request.
    pub fn is_fragment(&self) -> bool
        ensures { result ≡ is_fragment self.now.kind }
    {
        matches!(self.kind, MessageKind::Fragment)
    }

    /// Whether there is no number, or more is to come at a place that is no multiple of 8.
    pub fn is_cut(&self) -> bool
        requires { self.now.size ≤ max_size }
        ensures { result ≡ is_cut self.now }
    {
        self.size < 4 || (self.goes_on && (HEAD_LEN as u32 + self.size) % 8 != 0)
    }

    /// What the 12 octets at the front say.
    ///
    /// # Errors
    /// `NotGiop`, then `Version`, `TooLong`, `BadHead`.
    pub fn read(octets: &[u8]) -> Result<Head, FramingFault>
        requires { 12 ≤ length octets.now }
        ensures { result ≡ head_in octets.now }
    {
        if !is_giop(octets) {
            return Err(FramingFault::NotGiop);
        }
        if !is_1_2(octets) {
            return Err(FramingFault::Version);
        }
        let size = size_in(octets);
        if size > MAX_SIZE {
            return Err(FramingFault::TooLong);
        }
        typed_head(octets, size)
    }
}
