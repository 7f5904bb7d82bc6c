//! Which frames, operations and interfaces a specification is lowered to behind its types (ISO/IEC
//! 19500-1, interface declaration).
#![tactic(auto)]

mod attributes;
mod definitions;
mod frames;
mod interfaces;
pub mod laws;
mod oneway;
mod operations;
mod places;
mod raised;
mod signature;
mod table;

pub use definitions::lower_file;
pub use signature::{Offered, Role, Signature};
pub use table::OperationTable;
