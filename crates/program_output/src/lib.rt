//! Outputs: octets that grow at their end, and what goes there.
#![tactic(auto)]

pub mod blocks;
pub mod lanes;
pub mod output;
mod turning;
pub mod waiting;
pub mod words;
