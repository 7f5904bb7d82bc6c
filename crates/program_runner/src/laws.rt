//! Laws over what routines relate, in the words of this crate's calls.

pub use marshal_program::laws::{run_has_period_eight, run_is_chain_of_code};
