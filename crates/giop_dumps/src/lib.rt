//! The messages of captures told, each by its place, how many octets it has, and words: fragments are
//! joined, and each octet is told once.
#![tactic(auto)]

mod capture;
pub mod captures;
mod digits;
mod direction;
mod dump;
mod fault;
mod front;
mod octets;
mod open;
mod open_runs;
mod patience;
mod source;
mod text;
mod told;
mod unread;
mod words;

pub use digits::{Digits, unread_lines};
pub use dump::Dump;
pub use fault::{CutShort, DumpFault};
pub use octets::dump_octets;
pub use patience::{Impatience, Patience};
pub use source::{Source, SourceFault};
pub use text::dump_text;
pub use words::Words;
