//! Octets as digits.

use std::alloc::{AllocError, Global};
use std::fmt;

/// Octets as digits, in lower case.
#[derive(Clone, Copy)]
pub struct Digits<'q>(pub &'q [u8]);

impl fmt::Display for Digits<'_> {
    fn fmt<W: fmt::Write>(&self, f: &mut fmt::Formatter<W>) -> fmt::Result {
        if self.0.is_empty() {
            return f.write_str("-");
        }
        for octet in self.0 {
            write!(f, "{:02x}", *octet)?;
        }
        Ok(())
    }
}

/// The lines of octets that can't be read, and why.
pub fn unread_lines<F: fmt::Display>(
    alloc: Global,
    why: &F,
    octets: &[u8],
) -> Result<String, AllocError> {
    let digits = Digits(octets);
    format!(in alloc; "  {why}\n  {digits}\n")
}
