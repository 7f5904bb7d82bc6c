//! What a person is told of a refusal of anything but an IDL file: what it says, what is known, and
//! what says more.

mod known;
mod parts;
mod view;

pub use known::table_known;
pub use view::{number_in, refusal_view};
