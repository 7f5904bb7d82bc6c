//! The model of an IDL file: its types with their names, its interfaces, operations and exceptions.
#![tactic(auto)]

mod fault;
mod file;
pub mod laws;
mod model;
mod naming;
mod parts;
mod paths;
mod signatures;

pub use fault::ModelFault;
pub use file::build;
pub use lowered_types::{FirstAnswer, LabelWorth, TypeFault, TypeKind};
pub use model::Built;
