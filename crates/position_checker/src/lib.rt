//! Checks tables: what is accepted is right, whoever made it.
#![tactic(auto)]

mod accepted;
mod file;
pub mod laws;
mod routes;
mod served;
mod summary;
mod verdict;

pub use accepted::Accepted;
pub use file::{FileFault, MAX_LEN, file_octets};
pub use routine_checker::{CheckFault, RoutinePlace};
pub use summary::accepted_line;
pub use verdict::{Refused, check};
