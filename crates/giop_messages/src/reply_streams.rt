//! What the stream that a server sends says to a client that awaits the reply to a request
//! (ISO/IEC 19500-2, GIOP message formats): replies with other numbers are passed over, and the
//! fragments of the reply joined.

mod head;
mod heard;
pub mod laws;
mod reply;
mod turn;

pub use heard::{Heard, ReplyStream, closes};
pub use reply::SentReply;
