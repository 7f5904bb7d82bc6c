//! How calls end.

use giop::reply_bodies::SystemException;
use std::fmt;

/// What becomes of a call.
#[derive(Drop)]
pub enum Ending {
    /// The text of the result and of the `inout` and `out` parameters.
    Returned(String),
    /// The text of an exception of the operation, its id and its members.
    Raised(String),
    Failed(SystemException),
    /// The request was sent, and wants no answer.
    Sent,
}

/// Octets as text: those that aren't printed in two digits, `\` twice.
#[derive(Clone, Copy)]
struct Shown<'b>(&'b [u8]);

impl fmt::Display for Shown<'_> {
    fn fmt<W: fmt::Write>(&self, f: &mut fmt::Formatter<W>) -> fmt::Result {
        for octet in self.0 {
            match *octet {
                b'\\' => f.write_str("\\\\")?,
                32..=126 => write!(f, "{}", *octet as char)?,
                _ => write!(f, "\\x{:02x}", *octet)?,
            }
        }
        Ok(())
    }
}

/// Whether the call was made (ISO/IEC 19500-1, Standard Exception Definitions: completion_status).
#[derive(Clone, Copy)]
struct Completed(u32);

impl fmt::Display for Completed {
    fn fmt<W: fmt::Write>(&self, f: &mut fmt::Formatter<W>) -> fmt::Result {
        match self.0 {
            0 => f.write_str("COMPLETED_YES"),
            1 => f.write_str("COMPLETED_NO"),
            2 => f.write_str("COMPLETED_MAYBE"),
            other => write!(f, "completed {other}"),
        }
    }
}

/// A system exception as a line: its id, its minor code and whether the call was made.
#[derive(Clone, Copy)]
pub struct ExceptionLine<'e>(pub &'e SystemException);

impl fmt::Display for ExceptionLine<'_> {
    fn fmt<W: fmt::Write>(&self, f: &mut fmt::Formatter<W>) -> fmt::Result {
        let exception = self.0;
        let completed = Completed(exception.completion);
        write!(
            f,
            "{} minor 0x{:08x} {completed}",
            Shown(exception.id.as_slice()),
            exception.minor
        )
    }
}
