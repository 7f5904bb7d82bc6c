//! Which types a specification is lowered to, and what each is in a graph of types (ISO/IEC 19500-1, type
//! declaration, constant declaration, exception declaration).
#![tactic(auto)]

mod arms;
mod declarations;
mod fault;
mod kinds;
mod labels;
mod lowered;
mod members;
mod place;
mod readings;
mod simple;
mod table;
mod types;

pub use fault::{BuildFault, FirstAnswer, LabelWorth, TypeFault, TypeKind};
pub use members::MemberList;
pub use place::Place;
pub use readings::{declared_entry, resolved};
pub use table::TypeTable;
