//! What is asked of a table: values and references.

mod reference;
mod value;

pub use reference::ReferenceRequest;
pub use value::{Form, ValueRequest, Way};
