//! GIOP 1.2: messages read from streams of octets and written, profiles written, and references as
//! text, all by the types of GIOP.
#![tactic(auto)]

mod front;
mod gap;
pub mod giop_buffers;
mod giop_calls;
pub mod laws;
mod reading;
pub mod reply_bodies;
mod writing;

pub use front::Front;
pub use giop_calls::Giop;
pub use giop_messages::{GiopFault, Locate, Message, Reply, ReplyStatus, Request, Run};
pub use giop_types::Tagged;
pub use reference_texts::{Ior, ReferenceFault};
pub use writing::body::Body;
pub use writing::target::Addressed;
