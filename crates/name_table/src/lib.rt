//! What is declared in an IDL specification, and what names find (ISO/IEC 19500-1, names and
//! scoping).
#![tactic(auto)]

mod bases;
pub mod const_values;
pub mod entry;
pub mod key;
pub mod numbered;
mod record;
pub mod scope;
pub mod search;
mod shortcuts;
pub mod table;
mod word_order;

pub use entry::{Base, Meaning};
pub use key::{Key, Word};
pub use numbered::Numbered;
pub use scope::Scope;
pub use search::{Found, Sight};
pub use table::Table;
