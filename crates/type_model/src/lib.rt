//! What an IDL specification declares: its types with their names, interfaces, operations and
//! exceptions.
#![tactic(auto)]

pub mod called_operations;
mod model;
mod names;
pub mod part_names;
mod signatures;

pub use model::Model;
pub use names::{Name, NameTable};
pub use signatures::{Exception, Interface, Operation};
