//! Constants: what they are worth, operators on them, their types (ISO/IEC 19500-1, constant
//! declaration). `specs/Worth.antt` says what an expression is worth, where its names' worths are
//! known; a crate that knows names computes it from what stands here.

pub mod constant;
pub mod kind;
pub mod literals;
pub mod operators;

pub use constant::{Constant, Text};
pub use kind::ConstKind;
pub use literals::{literal_constant, text_constant};
pub use operators::{applied, signed};
