//! GIOP 1.2 messages written to buffers of the caller's, and what is told of those that are read.

mod buffer;
mod fault;
mod front;
mod writing;

pub use fault::BufferFault;
pub use front::{MessageFront, read_message};
pub use writing::{ReplyHead, RequestHead, write_reply, write_request};
