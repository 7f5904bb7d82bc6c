//! Why the body of a message, or all of it, can't be read.

use thiserror::Error;

/// Each has its number and name as its text.
#[derive(Clone, Copy, Debug, PartialEq, Eq, Error)]
pub(crate) enum Unread {
    /// A whole message says nothing.
    #[error("93 BadHead")]
    BadHead,
    /// The body of a reply isn't what its status says.
    #[error("139 OtherBody")]
    OtherBody,
    /// The table has no operation of the name that a request has.
    #[error("143 UnknownOperation")]
    UnknownOperation,
    /// The request of a reply wasn't told.
    #[error("144 NoRequest")]
    NoRequest,
    /// The body of a request isn't the arguments of its operation.
    #[error("145 OtherArguments")]
    OtherArguments,
}
