//! The words of GIOP messages: what they say, and their bodies as text by the types of a table.
#![tactic(auto)]

mod asked;
mod body;
pub mod dump_commands;
mod frames;
mod message;
mod names;
mod quoted;
mod said;
mod unread;
mod words;

pub use frames::MessageTypes;
pub use words::TableWords;
