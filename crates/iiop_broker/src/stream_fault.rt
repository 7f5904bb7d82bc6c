//! Why a stream isn't served to its end.

use thiserror::Error;

/// A fault has its number and name as its text.
#[derive(Clone, Copy, Debug, PartialEq, Eq, Error)]
pub enum StreamFault {
    /// The connection is there already.
    #[error("101 AlreadyThere")]
    AlreadyThere,
    #[error("102 ReadFailed")]
    ReadFailed,
    /// So many octets of the answers went out.
    #[error("103 WriteFailed sent {sent}")]
    WriteFailed { sent: u128 },
    #[error("104 NoMemory")]
    NoMemory,
    /// As many reads gave octets as there may be.
    #[error("105 ReadLimit")]
    ReadLimit,
    /// 64 other connections are there.
    #[error("106 TooMany")]
    TooMany,
}
