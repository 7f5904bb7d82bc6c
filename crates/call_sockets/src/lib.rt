//! Connections to servers by TCP, made and read within a time.
#![tactic(auto)]

mod deadline;
mod dialler;
mod ends;
mod place;

pub use dialler::Dialler;
pub use ends::{DialledReader, DialledWriter};
