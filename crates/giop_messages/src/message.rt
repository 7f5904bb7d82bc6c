//! What a message says.

ghost use Rattle.std.specs.Prelude.{◌≡◌};
ghost use Rattle.giop_messages.specs.Headers.{number_of};

use type_graph::Order;

/// A call of an operation of an object.
#[derive(Drop)]
pub struct Request<'b> {
    /// The number by which the caller knows the answer.
    pub id: u32,
    /// Which answers are wanted, as it stands: bits 0 and 1 tell.
    pub flags: u8,
    /// The object's key, where the target tells one.
    pub key: Option<Vec<u8>>,
    pub operation: Vec<u8>,
    /// The byte order of the body.
    pub order: Order,
    /// Where the body stands, counted from the start of the message.
    pub body_at: usize,
    /// The octets from there on.
    pub octets: &'b [u8],
}

/// The answer to a call.
#[derive(Drop)]
pub struct Reply<'b> {
    /// The number of the request.
    pub id: u32,
    pub status: ReplyStatus,
    /// The byte order of the body.
    pub order: Order,
    /// Where the body stands, counted from the start of the message.
    pub body_at: usize,
    /// The octets from there on.
    pub octets: &'b [u8],
}

/// How a call ended (ReplyStatusType_1_2).
#[derive(Clone, Copy, Debug, PartialEq, Eq)]
pub enum ReplyStatus {
    NoException,
    UserException,
    SystemException,
    LocationForward,
    LocationForwardPerm,
    NeedsAddressingMode,
}

impl ReplyStatus {
    /// Its number.
    pub fn number(self) -> u32
        ensures { result ≡ number_of self }
    {
        match self {
            ReplyStatus::NoException => 0,
            ReplyStatus::UserException => 1,
            ReplyStatus::SystemException => 2,
            ReplyStatus::LocationForward => 3,
            ReplyStatus::LocationForwardPerm => 4,
            ReplyStatus::NeedsAddressingMode => 5,
        }
    }
}

/// The question whether an object is here.
#[derive(Drop)]
pub struct Locate {
    /// The number by which the asker knows the answer.
    pub id: u32,
    /// The object's key, where the target tells one.
    pub key: Option<Vec<u8>>,
    pub order: Order,
}

/// What a message says.
#[derive(Drop)]
pub enum Message<'b> {
    Request(Request<'b>),
    Reply(Reply<'b>),
    /// A request with this number is given up.
    Cancel(u32),
    Locate(Locate),
    /// The connection is closed.
    CloseConnection,
    /// A message before was none.
    MessageError,
}
