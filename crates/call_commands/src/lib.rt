//! Calls of objects with arguments and results as text, but for words, files and sockets.
#![tactic(auto)]

mod ask;
mod choice;
mod command;
mod ending;
mod fault;
pub mod followed_calls;
mod sending;

pub use ask::{CallTypes, TextCall};
pub use command::call_text;
pub use ending::{Ending, ExceptionLine};
pub use fault::CallRefusal;
