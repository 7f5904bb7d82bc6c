//! What a call says and what its reply says, as text: arguments, results, exceptions, by the types of
//! a table and the names of their parts.

mod argument;
mod body;
mod disposition;
mod outcome;
mod raised;

pub use argument::argument_tape;
pub use outcome::{Outcome, read_outcome};
