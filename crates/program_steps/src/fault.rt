//! Why a run was refused.

ghost use Rattle.std.specs.Prelude.{◌≡◌};
ghost use Rattle.program_steps.specs.declared.fault.RunFault.TheVariants.{NoMemory};

use std::alloc::{AllocError, AllocFailed};
use thiserror::Error;

/// A fault has its number and name as its text.
#[derive(Debug, Drop, Error)]
pub enum RunFault {
    /// The input ends too soon.
    #[error("60 Short")]
    Short,
    /// A boolean is neither 0 nor 1.
    #[error("61 BadBool")]
    BadBool,
    /// An enumerator is past the last.
    #[error("62 BadEnum")]
    BadEnum,
    /// The length of a string leaves no room for its terminating zero.
    #[error("63 BadLength")]
    BadLength,
    /// A string doesn't end with a zero.
    #[error("64 NoTerminator")]
    NoTerminator,
    /// A zero stands inside a string.
    #[error("65 ZeroInside")]
    ZeroInside,
    /// A string or a sequence is longer than its bound.
    #[error("66 OverBound")]
    OverBound,
    /// More than 64 sequences stand one inside another.
    #[error("67 TooDeep")]
    TooDeep,
    /// The tape goes on behind the value.
    #[error("68 TapeLeft")]
    TapeLeft,
    /// Memory was wanted.
    #[error("no memory")]
    NoMemory,
}

impl From<AllocError> for RunFault {
    ghost from_gives = { λ _ fault. fault ≡ NoMemory };

    fn from(_error: AllocError) -> RunFault {
        RunFault::NoMemory
    }
}

impl<T: Drop> From<AllocFailed<T>> for RunFault {
    ghost from_gives = { λ _ fault. fault ≡ NoMemory };

    fn from(_error: AllocFailed<T>) -> RunFault {
        RunFault::NoMemory
    }
}
