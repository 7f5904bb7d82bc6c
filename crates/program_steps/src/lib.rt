//! Steps of a run: what each instruction does to it, and a loop over small things that calls nothing.
#![tactic(auto)]

pub mod direction;
mod fault;
pub mod reach;
pub mod split;
pub mod text;

pub use fault::RunFault;
