//! Why a tape isn't read or written.

ghost use Rattle.std.specs.Prelude.{◌≡◌};
ghost use Rattle.giop_types.specs.declared.tapes.fault.TapeFault.TheVariants.{NoMemory};

use std::alloc::AllocError;
use thiserror::Error;

#[derive(Clone, Copy, Debug, PartialEq, Eq, Error)]
pub enum TapeFault {
    /// The octets aren't those of what is to be read.
    #[error("no such tape")]
    NotATape,
    /// More octets than their count can say, which is 4,294,967,295.
    #[error("too many octets for their count")]
    TooLong,
    #[error("no memory")]
    NoMemory,
}

impl From<AllocError> for TapeFault {
    ghost from_gives = { λ _ fault. fault ≡ NoMemory };

    fn from(_error: AllocError) -> TapeFault {
        TapeFault::NoMemory
    }
}
