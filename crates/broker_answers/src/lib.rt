//! What is said on connections that interleave in any way, and what a broker answers to messages:
//! objects and their servant, requests and their replies.
#![tactic(auto)]

mod answer;
pub mod attribute_keeper;
mod exception;
mod finding;
pub mod laws;
mod locating;
mod objects;
mod outcome;
mod reply;
mod scope;
mod servant;
mod service;
mod serving;

pub use exception::BrokerException;
pub use servant::{Outcome, Servant};
pub use service::Service;
pub use serving::Answer;
