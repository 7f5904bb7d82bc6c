//! Octets as text in quotes.

use std::fmt;

/// Octets as characters of ASCII between quotes: a quote, a backslash, a control character and one that
/// isn't of ASCII by its number, so that they forge no line and say nothing to a terminal.
#[derive(Clone, Copy)]
pub(crate) struct Quoted<'q>(pub(crate) &'q [u8]);

impl fmt::Display for Quoted<'_> {
    fn fmt<W: fmt::Write>(&self, f: &mut fmt::Formatter<W>) -> fmt::Result {
        f.write_str("\"")?;
        for octet in self.0 {
            match *octet {
                b'"' | b'\\' => write!(f, "\\{}", *octet as char)?,
                32..=126 => write!(f, "{}", *octet as char)?,
                _ => write!(f, "\\x{:02x}", *octet)?,
            }
        }
        f.write_str("\"")
    }
}
