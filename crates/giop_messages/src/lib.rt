//! What GIOP 1.2 messages are (ISO/IEC 19500-2, GIOP message formats): their heads in a stream,
//! requests that come in fragments, what their bodies say, and the laws of these.
#![tactic(auto)]

mod cancel;
mod fault;
mod frame;
mod head;
mod joining;
pub mod laws;
mod message;
pub mod reply_streams;
mod run;

pub use cancel::{cancels, message_id};
pub use fault::{FramingFault, GiopFault};
pub use frame::{Frame, frame_in};
pub use head::{HEAD_LEN, Head, MAX_SIZE, MessageKind, is_giop, number, size_in};
pub use joining::{add_piece, begin_run, breaks_run};
pub use message::{Locate, Message, Reply, ReplyStatus, Request};
pub use run::Run;
