//! Calls of objects on connections that are made for them.

mod calling;
mod dial;
mod form;
mod reached;

pub use calling::call_at;
pub use dial::{Dial, DialFault};
pub use form::Form;
pub use reached::call_by;
