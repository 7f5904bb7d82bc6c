//! Why a text is no URL of a place.

ghost use Rattle.std.specs.Prelude.{◌≡◌};
ghost use Rattle.reference_texts.specs.declared.corbaloc.fault.CorbalocFault.TheVariants.{NoMemory};

use std::alloc::AllocError;
use thiserror::Error;

/// A numbered fault has its number and name as its text.
#[derive(Clone, Copy, Debug, PartialEq, Eq, Error)]
pub enum CorbalocFault {
    #[error("130 BadCorbaloc")]
    BadCorbaloc,
    #[error("no memory")]
    NoMemory,
}

impl From<AllocError> for CorbalocFault {
    ghost from_gives = { λ _ fault. fault ≡ NoMemory };

    fn from(_error: AllocError) -> CorbalocFault {
        CorbalocFault::NoMemory
    }
}
