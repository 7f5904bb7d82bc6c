//! Why a dump ends before its capture does.

ghost use Rattle.std.specs.Prelude.{◌≡◌};
ghost use Rattle.giop_dumps.specs.declared.fault.DumpFault.TheVariants.{NoMemory};

use crate::source::SourceFault;
use std::alloc::AllocError;
use thiserror::Error;

/// A numbered fault has its number and name as its text.
#[derive(Clone, Copy, Debug, PartialEq, Eq, Error)]
pub enum DumpFault {
    /// A line of the text is none of its form.
    #[error("142 BadCapture line {line}")]
    BadCapture { line: u64 },
    #[error("cannot read the capture")]
    Unread,
    #[error("cannot write")]
    Unwritten,
    #[error("no memory")]
    NoMemory,
}

/// A dump that ended before its capture did.
#[derive(Clone, Copy, Debug, PartialEq, Eq)]
pub struct CutShort {
    pub fault: DumpFault,
    /// Whether messages were told before.
    pub told: bool,
}

impl From<AllocError> for DumpFault {
    ghost from_gives = { λ _ fault. fault ≡ NoMemory };

    fn from(_error: AllocError) -> DumpFault {
        DumpFault::NoMemory
    }
}

impl From<SourceFault> for DumpFault {
    fn from(fault: SourceFault) -> DumpFault {
        match fault {
            SourceFault::Unread => DumpFault::Unread,
            SourceFault::NoMemory => DumpFault::NoMemory,
        }
    }
}
