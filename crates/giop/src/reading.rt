//! Messages read: what the octets of a whole message say.

pub(crate) mod header;
pub(crate) mod key;
pub(crate) mod message;
pub(crate) mod place;
pub(crate) mod profile;
pub(crate) mod target;
