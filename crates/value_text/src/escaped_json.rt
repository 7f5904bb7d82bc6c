//! JSON texts for a terminal. JSON lets DEL and the characters U+0080 to U+009F stand in strings as
//! they are; here they stand as escapes, which say the same.

mod escaping;
pub mod laws;

pub use escaping::escape;
