//! Object references among values: by which types they are told, and their texts.

pub mod laws;
mod octets;
mod printing;
mod reading;
mod shape;

pub use octets::{octet_of, octets_of};
pub use printing::reference_text;
pub use reading::reference_value;
pub use shape::is_reference;
