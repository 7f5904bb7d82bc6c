//! Calls of objects, followed to where the objects are.

mod followed;
mod heeded;
mod once;
mod wanted;

pub use followed::call_object;
pub use wanted::Wanted;
