//! The bodies of replies that are no results (ISO/IEC 19500-2, GIOP message formats: reply body):
//! system exceptions, and references to where an object is.

mod exception;
mod forward;
mod tape;

pub use exception::{SystemException, read_exception};
pub use forward::read_forward;
