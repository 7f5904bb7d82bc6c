//! Tables of marshalling programs, and the files in which they are kept.
#![tactic(auto)]

mod cursor;
mod decode;
mod draft;
mod encode;
mod instrs;
mod labels;
pub mod laws;
mod lists;
mod nodes;
mod numbers;
mod part;
mod routines;
mod signatures;
mod skim;
mod stop;
mod table;
mod tail;
mod texts;
mod uses;
mod whole;

pub use decode::decode_table;
pub use encode::encode_table;
pub use stop::stop_of;
pub use table::{Table, Which};
