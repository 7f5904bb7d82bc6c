//! Many connections served at the same time, by one thread: calls on them don't wait.
#![tactic(auto)]

mod connection;
pub mod laws;
mod limits;
mod listener;
mod reading;
mod serving;
mod slot;
mod sweep;

pub use connection::Connection;
pub use listener::{End, Limit, Listener, PolledListener};
pub use serving::{Interruption, MAX_SWEEPS, serve_at_once};
