//! A broker: it serves the calls of many connections, whose events may come in any order, or a
//! connection from a reader to a writer.
#![tactic(auto)]

mod broker;
mod connections;
mod ends;
mod event;
mod fault;
mod fitting;
mod front;
mod hearing;
mod kept;
pub mod laws;
mod memory;
mod piece;
mod pieces;
mod reading;
mod room;
mod runs;
mod sending;
mod server;
mod serving;
mod stream_fault;

pub use broker::Broker;
pub use broker_answers::{Outcome, Servant};
pub use ends::{Failed, Input, Output};
pub use event::Event;
pub use fault::BrokerFault;
pub use fitting::objects_fit;
pub use memory::{Sink, Source};
pub use reading::read_within;
pub use room::MAX_ROOM;
pub use sending::send;
pub use serving::{MAX_READS, serve_stream, serve_stream_within};
pub use stream_fault::StreamFault;
