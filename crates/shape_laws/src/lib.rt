//! Trees of one shape mean the same.
#![tactic(auto)]

pub mod laws;
