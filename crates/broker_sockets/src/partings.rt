//! Connections that are let go of. The side that is written to is shut first, and what still comes
//! is read for a bounded while: a connection that is closed while octets are unread is reset, and its
//! peer may lose the last answer.

mod parting;
mod partings;
mod waiting;

pub use parting::{Limits, Parting, Skip};
pub use partings::{MAX_PARTINGS, Partings};
pub use waiting::part;
