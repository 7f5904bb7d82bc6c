//! Why there is no reference.

ghost use Rattle.std.specs.Prelude.{◌≡◌};
ghost use Rattle.reference_texts.specs.Refusal.{of_run, of_tape};
ghost use Rattle.reference_texts.specs.declared.fault.ReferenceFault.TheVariants.{NoMemory};

use giop_types::TapeFault;
use program_runner::RunFault;
use std::alloc::AllocError;
use thiserror::Error;

/// A fault has its number and name as its text.
#[derive(Clone, Copy, Debug, PartialEq, Eq, Error)]
pub enum ReferenceFault {
    /// A text spells no reference, or there is none with these parts: a zero stands in a string, or
    /// a part is too long for its count.
    #[error("94 BadIor")]
    BadIor,
    #[error("no memory")]
    NoMemory,
}

impl From<AllocError> for ReferenceFault {
    ghost from_gives = { λ _ fault. fault ≡ NoMemory };

    fn from(_error: AllocError) -> ReferenceFault {
        ReferenceFault::NoMemory
    }
}

impl From<RunFault> for ReferenceFault {
    ghost from_gives = { λ run fault. fault ≡ of_run run };

    fn from(run: RunFault) -> ReferenceFault {
        match run {
            RunFault::NoMemory => ReferenceFault::NoMemory,
            _ => ReferenceFault::BadIor,
        }
    }
}

impl From<TapeFault> for ReferenceFault {
    ghost from_gives = { λ tape fault. fault ≡ of_tape tape };

    fn from(tape: TapeFault) -> ReferenceFault {
        match tape {
            TapeFault::NoMemory => ReferenceFault::NoMemory,
            _ => ReferenceFault::BadIor,
        }
    }
}
