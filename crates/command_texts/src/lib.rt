//! What the commands do with values as text: the octets of a value that a text says, and the text
//! of a value that octets encode, by the types of a table; and what these texts look like.
#![tactic(auto)]

pub mod call_texts;
mod line;
mod loaded;
mod marshal;
mod outline;

pub use line::{shown, value_line};
pub use loaded::Loaded;
