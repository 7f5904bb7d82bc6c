//! Why a call has no answer.

ghost use Rattle.std.specs.Prelude.{◌≡◌};
ghost use Rattle.call_client.specs.Causes.{cause_of};

use giop_messages::{FramingFault, GiopFault};
use thiserror::Error;

/// All that a call of an object can end with in place of its answer, here and in the crates that call
/// by this one. A fault has as its text the line that a program puts behind its name.
#[derive(Clone, Copy, Debug, PartialEq, Eq, Error)]
pub enum CallFault {
    /// No octets are those of the request, or memory was wanted before they were sent. Nothing was sent.
    #[error("{0}")]
    NotARequest(GiopFault),
    /// No message of GIOP 1.2 stands where one should.
    #[error("131 BadMessage {0}")]
    BadMessage(FramingFault),
    /// The reply has no header that is one of a reply with the number.
    #[error("132 BadReply")]
    BadReply,
    /// To the server a message that was sent was none.
    #[error("133 MessageError")]
    MessageError,
    /// The server closed the connection by CloseConnection.
    #[error("134 CloseConnection")]
    CloseConnection,
    #[error("135 ReadFailed")]
    ReadFailed,
    /// The stream ended before the answer.
    #[error("136 EndOfStream")]
    EndOfStream,
    /// As many reads gave octets as there may be.
    #[error("137 ReadLimit")]
    ReadLimit,
    /// So many octets of the request went out.
    #[error("138 WriteFailed sent {sent}")]
    WriteFailed { sent: usize },
    /// The body of the reply isn't what its status says.
    #[error("139 OtherBody")]
    OtherBody,
    /// The object was said to be elsewhere for the ninth time.
    #[error("140 TooManyForwards")]
    TooManyForwards,
    /// The reference has no profile by which the object could be named in the form that is asked for.
    #[error("141 NeedsAddressingMode")]
    NeedsAddressingMode,
    /// No connection can be made to the port of the host.
    #[error("socket")]
    NotReached,
    /// Memory was wanted for the reply.
    #[error("no memory")]
    NoMemory,
}

/// What a fault comes from.
#[derive(Clone, Copy, Debug, PartialEq, Eq)]
pub enum Cause {
    /// What was asked for, or what the server said.
    Input,
    /// The connection: it couldn't be made, or was lost before the answer, or its time was over.
    Socket,
    Memory,
}

impl CallFault {
    /// What it comes from.
    pub fn cause(&self) -> Cause
        ensures { result ≡ cause_of self.now }
    {
        match *self {
            CallFault::NotARequest(GiopFault::NoMemory) | CallFault::NoMemory => Cause::Memory,
            CallFault::CloseConnection
            | CallFault::ReadFailed
            | CallFault::EndOfStream
            | CallFault::ReadLimit
            | CallFault::WriteFailed { .. }
            | CallFault::NotReached => Cause::Socket,
            CallFault::NotARequest(_)
            | CallFault::BadMessage(_)
            | CallFault::BadReply
            | CallFault::MessageError
            | CallFault::OtherBody
            | CallFault::TooManyForwards
            | CallFault::NeedsAddressingMode => Cause::Input,
        }
    }
}
