//! Why nothing is put into a buffer.

use crate::GiopFault;

/// Why nothing is put into a buffer of the caller's.
#[derive(Clone, Copy, Debug, PartialEq, Eq)]
pub enum BufferFault {
    /// The buffer has less room than is needed, in octets.
    NoRoom { needed: usize },
    /// The message isn't written, or none stands there.
    Refused(GiopFault),
}
