//! The faults of a specification's types, beside the first.
#![tactic(auto)]

mod all_faults;
pub mod laws;
mod parts;
mod reading;

pub use all_faults::{TypeFaults, type_faults};
