//! Why a capture isn't told to its end.

ghost use Rattle.std.specs.Prelude.{◌≡◌};
ghost use Rattle.giop_words.specs.Faults.{fault_of};

use command_tables::Plain;
use giop_dumps::{CutShort, DumpFault};
use thiserror::Error;

/// A fault has as its text the line that a program puts behind its name.
#[derive(Clone, Copy, Debug, PartialEq, Eq, Error)]
pub enum CaptureFault<'a> {
    #[error("cannot read {file}")]
    Unread { file: &'a str },
    /// A file is no capture, or not the octets of one direction where these are wanted.
    #[error("142 BadCapture {}", Plain(.file))]
    NotCapture { file: &'a str },
    /// A line of the text is none of its form, and nothing was told of those before it.
    #[error("142 BadCapture line {line}")]
    BadLine { line: u64 },
    /// Memory was wanted before anything was told.
    #[error("no memory")]
    NoMemory,
    /// Messages were told up to there, unless the file can't be read on.
    #[error(transparent)]
    CutShort(DumpFault),
}

impl<'a> CaptureFault<'a> {
    /// The fault of a dump that ended before its capture did.
    pub(crate) fn of(cut: CutShort) -> CaptureFault<'a>
        ensures { result ≡ fault_of cut }
    {
        match cut.fault {
            DumpFault::BadCapture { line } if !cut.told => CaptureFault::BadLine { line },
            DumpFault::NoMemory if !cut.told => CaptureFault::NoMemory,
            fault => CaptureFault::CutShort(fault),
        }
    }
}
