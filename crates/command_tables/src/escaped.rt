//! Names of whoever made a table, as text that stays on its line.

use std::fmt;

/// A text with an escape for each control character and each backslash, so that it forges no line
/// of a listing and says nothing to a terminal.
#[derive(Clone, Copy)]
pub struct Escaped<'t>(pub &'t str);

/// A character of it.
#[derive(Clone, Copy)]
struct EscapedChar(char);

impl fmt::Display for EscapedChar {
    fn fmt<W: fmt::Write>(&self, f: &mut fmt::Formatter<W>) -> fmt::Result {
        match self.0 {
            '\n' => write!(f, "\\n"),
            '\r' => write!(f, "\\r"),
            '\t' => write!(f, "\\t"),
            '\\' => write!(f, "\\\\"),
            c if c.is_control() => write!(f, "\\x{:02x}", c as u32),
            c => write!(f, "{c}"),
        }
    }
}

impl fmt::Display for Escaped<'_> {
    fn fmt<W: fmt::Write>(&self, f: &mut fmt::Formatter<W>) -> fmt::Result {
        for c in self.0.chars() {
            write!(f, "{}", EscapedChar(c))?;
        }
        Ok(())
    }
}

/// A word with an escape for each control character alone.
#[derive(Clone, Copy)]
pub struct Plain<'a>(pub &'a str);

impl<'a> fmt::Display for Plain<'a> {
    fn fmt<W: fmt::Write>(&self, f: &mut fmt::Formatter<W>) -> fmt::Result {
        for c in self.0.chars() {
            if c.is_control() {
                write!(f, "\\x{:02x}", c as u32)?;
            } else {
                write!(f, "{c}")?;
            }
        }
        Ok(())
    }
}
