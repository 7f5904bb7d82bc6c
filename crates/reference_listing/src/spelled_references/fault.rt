//! Why a text spells no reference.

ghost use Rattle.std.specs.Prelude.{◌≡◌};
ghost use Rattle.reference_listing.specs.declared.spelled_references.fault.SpellingFault.TheVariants.{NoMemory};

use std::alloc::AllocError;
use thiserror::Error;

/// A numbered fault has its number and name as its text.
#[derive(Clone, Copy, Debug, PartialEq, Eq, Error)]
pub enum SpellingFault {
    #[error("94 BadIor")]
    BadIor,
    #[error("130 BadCorbaloc")]
    BadCorbaloc,
    #[error("no memory")]
    NoMemory,
}

impl From<AllocError> for SpellingFault {
    ghost from_gives = { λ _ fault. fault ≡ NoMemory };

    fn from(_error: AllocError) -> SpellingFault {
        SpellingFault::NoMemory
    }
}
