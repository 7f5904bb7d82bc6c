//! Object references: their texts, and the profiles of IIOP that say where an object is.
#![tactic(auto)]

pub mod corbaloc;
mod encapsulation;
mod fault;
mod iiop;
pub mod laws;
mod manner;
mod reference;
mod text;

pub use encapsulation::split_flag;
pub use fault::ReferenceFault;
pub use iiop::profile;
pub use manner::{Manner, manner_of};
pub use reference::{Ior, owned, push_reference, reference_in};
pub use text::{encapsulation_in, ior_from_text, ior_to_text};
