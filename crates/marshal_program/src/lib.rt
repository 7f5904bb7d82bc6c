//! Marshalling programs: what they are made of, and what running them means.
#![tactic(auto)]

pub mod fault;
pub mod instr;
pub mod laws;
pub mod program;
mod rules;

pub use fault::{GenFault, TableFault};
pub use instr::{Code, Disc, Instr, Routine};
pub use program::Program;
