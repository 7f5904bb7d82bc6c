//! A client of GIOP 1.2 (ISO/IEC 19500-2): requests written to a stream, and their replies awaited
//! on another.
#![tactic(auto)]

mod answer;
mod awaiting;
mod calling;
mod fault;
pub mod laws;
pub mod object_calls;
mod request;

pub use answer::ReplyBody;
pub use awaiting::await_reply;
pub use calling::call;
pub use fault::{CallFault, Cause};
pub use request::{Request, send_request};
