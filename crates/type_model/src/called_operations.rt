//! Which operation a word names, and which exception has an id.

mod exception;
mod operation;

pub use exception::exception_with;
pub use operation::operation_of;
