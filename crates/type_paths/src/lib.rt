//! What is wrong with the paths of a list of types, and where: a type that holds itself, or
//! types that are held too deep.
#![tactic(auto)]

mod circles;
mod fault;
mod find;
pub mod laws;
mod levels;
mod sited;
mod sites;
#[cfg(test)]
mod tests;

pub use fault::PathFault;
pub use find::find_path_fault;
pub use sites::NodeSites;
