//! Why a broker doesn't take an event.

use thiserror::Error;

/// A fault has its number and name as its text.
#[derive(Clone, Copy, Debug, PartialEq, Eq, Error)]
pub enum BrokerFault {
    /// A piece or an end of a connection that isn't there.
    #[error("100 NoSuchConnection")]
    NoSuchConnection,
    /// The begin of a connection that is there.
    #[error("101 AlreadyThere")]
    AlreadyThere,
    #[error("104 NoMemory")]
    NoMemory,
    /// The begin of a connection while 64 are there.
    #[error("106 TooMany")]
    TooMany,
}
