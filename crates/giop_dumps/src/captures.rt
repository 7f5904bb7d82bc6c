//! Captures of what went over a connection: their form, the octets of the two directions, and those that
//! aren't told yet.

mod backlog;
mod fault;
mod follow;
mod form;

pub use backlog::Backlog;
pub use fault::CaptureFault;
pub use follow::{Followed, Piece, Side, Stage, follow_line};
pub use form::{CaptureForm, form_of};
