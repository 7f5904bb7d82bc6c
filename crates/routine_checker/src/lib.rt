//! Checks routines: those that are accepted do just what their nodes mean, whoever made them.
#![tactic(auto)]

mod check;
mod counts;
mod fault;
mod judge;
pub mod laws;
mod names;
mod noted;
mod pieces;
mod sets;
mod step;
mod times;
mod work;

pub use check::check_routines;
pub use fault::{CheckFault, RoutinePlace};
pub use names::check_name;
