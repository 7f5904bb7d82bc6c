//! Why octets of a capture can't be read.

ghost use Rattle.std.specs.Prelude.{◌≡◌};
ghost use Rattle.giop_dumps.specs.Unread.{unread_of};

use giop_messages::FramingFault;
use thiserror::Error;

/// Each has its number and name as its text.
#[derive(Clone, Copy, Debug, PartialEq, Eq, Error)]
pub(crate) enum Unread {
    #[error("90 NotGiop")]
    NotGiop,
    #[error("91 Version")]
    Version,
    #[error("92 TooLong")]
    TooLong,
    #[error("93 BadHead")]
    BadHead,
    #[error("97 BadFragment")]
    BadFragment,
    /// The capture ends within a message.
    #[error("146 CutMessage")]
    CutMessage,
}

impl Unread {
    /// Why no message stands somewhere.
    pub(crate) fn of(fault: FramingFault) -> Unread
        ensures { result ≡ unread_of fault }
    {
        match fault {
            FramingFault::NotGiop => Unread::NotGiop,
            FramingFault::Version => Unread::Version,
            FramingFault::TooLong => Unread::TooLong,
            FramingFault::BadHead => Unread::BadHead,
            FramingFault::BadFragment => Unread::BadFragment,
        }
    }
}
