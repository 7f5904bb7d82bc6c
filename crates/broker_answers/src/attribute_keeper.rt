//! A servant that keeps the attributes of objects.

mod action;
mod attributes;
mod keeper;
mod kept;
pub mod laws;

pub use action::Action;
pub use keeper::Keeper;
