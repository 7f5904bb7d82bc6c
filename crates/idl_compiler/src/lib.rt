//! The table of an IDL file: from its text over tokens, tree, names and model to a table that the
//! checker accepted, and from the octets of the file to those of its table file.
#![tactic(auto)]

mod choice;
mod fault;
mod file;
pub mod laws;
mod number;
mod steps;

pub use choice::{Settled, settle};
pub use fault::CompileFault;
pub use file::{CompiledFile, compile_file, compile_source};
pub use steps::{NamedTable, compile};
