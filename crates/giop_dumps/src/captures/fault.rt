//! Why a file is no capture.

ghost use Rattle.std.specs.Prelude.{◌≡◌};
ghost use Rattle.giop_dumps.specs.declared.captures.fault.CaptureFault.TheVariants.{NoMemory};

use std::alloc::AllocError;
use thiserror::Error;

/// A numbered fault has its number and name as its text.
#[derive(Clone, Copy, Debug, PartialEq, Eq, Error)]
pub enum CaptureFault {
    /// The octets are none of a connection, and no text of them.
    #[error("142 BadCapture")]
    BadCapture,
    #[error("no memory")]
    NoMemory,
}

impl From<AllocError> for CaptureFault {
    ghost from_gives = { λ _ fault. fault ≡ NoMemory };

    fn from(_error: AllocError) -> CaptureFault {
        CaptureFault::NoMemory
    }
}
