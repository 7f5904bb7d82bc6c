//! Messages written: requests, replies, replies to locate requests, and the message that says that
//! one before was none.

pub(crate) mod body;
pub(crate) mod failure;
pub(crate) mod locate;
pub(crate) mod message;
pub(crate) mod reply;
pub(crate) mod request;
pub(crate) mod target;
