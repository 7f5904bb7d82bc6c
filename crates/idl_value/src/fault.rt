//! Why a value isn't packed, or a tape isn't unpacked.

ghost use Rattle.std.specs.Prelude.{◌≡◌};
ghost use Rattle.idl_value.specs.declared.fault.ValueFault.TheVariants.{NoMemory};

use std::alloc::{AllocError, AllocFailed};
use thiserror::Error;

/// A fault has its number and name as its text.
#[derive(Debug, Drop, Error)]
pub enum ValueFault {
    /// The value isn't one of the type.
    #[error("40 NotOfType")]
    NotOfType,
    /// The octets aren't the tape of a value of the type.
    #[error("41 NotATape")]
    NotATape,
    #[error("no memory")]
    NoMemory,
}

impl From<AllocError> for ValueFault {
    ghost from_gives = { λ _ fault. fault ≡ NoMemory };

    fn from(_error: AllocError) -> ValueFault {
        ValueFault::NoMemory
    }
}

impl<T: Drop> From<AllocFailed<T>> for ValueFault {
    ghost from_gives = { λ _ fault. fault ≡ NoMemory };

    fn from(_error: AllocFailed<T>) -> ValueFault {
        ValueFault::NoMemory
    }
}
