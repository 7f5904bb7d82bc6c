//! What a person is told of the faults of an IDL file: where each stands in the file as it was
//! written, the line with a caret, and what is known.
#![tactic(auto)]

mod all_names;
mod facts;
mod grammar;
mod lines;
mod names;
pub mod refusal_views;
pub mod shown_source;
pub mod source_places;
mod tokens;
mod types;
mod words;

pub use all_names::name_faults_in;
pub use facts::{AllKnown, Known, Note, known_of};
pub use lines::{Look, view};
