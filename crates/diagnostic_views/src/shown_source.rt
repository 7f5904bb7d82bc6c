//! Shows a line of a source with a caret under a place: 120 characters at most, each octet that isn't
//! a graphic character of ASCII as an escape.

mod line;
mod shown;
mod window;

pub use shown::all_shown;
pub use window::{Window, show_line};
