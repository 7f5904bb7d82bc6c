//! What the names of an IDL specification mean (ISO/IEC 19500-1, names and scoping).
#![tactic(auto)]

// `?` is short for these, with two calls more, which the check has to follow.

/// What was asked for; at a fault the function stops.
macro_rules! got {
    ($asked:expr) => {
        match $asked {
            Ok(part) => part,
            Err(fault) => return Err(fault),
        }
    };
}

/// The same of what takes memory alone.
macro_rules! room {
    ($asked:expr) => {
        match $asked {
            Ok(part) => part,
            Err(_) => return Err(NameFault::NoMemory),
        }
    };
}

mod all_faults;
mod evaluation;
pub mod fault;
mod kinds;
pub mod laws;
mod members;
pub mod names;
mod reader;
mod reading;
mod repository_ids;
mod specification;
mod tables;

pub use all_faults::{NameFaults, name_faults};
pub use fault::{Flaw, NameFault, Unfit};
pub use idl_tree::kinds::EntryKind;
pub use name_table::{Base, Scope};
pub use names::Names;
pub use specification::bind;
