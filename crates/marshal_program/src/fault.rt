//! Why octets are no table, a list of routines no program, and why no program was made.

ghost use Rattle.std.specs.Prelude.{◌≡◌};
ghost use Rattle.marshal_program.specs.declared.fault.TableFault.TheVariants.{NoMemory};
ghost use Rattle.marshal_program.specs.declared.fault.GenFault.TheVariants.{NoMemory as NoMemoryToMake};

use std::alloc::{AllocError, AllocFailed};
use thiserror::Error;

/// A fault has its number and name as its text.
#[derive(Debug, Drop, Error)]
pub enum TableFault {
    /// A wrong start, an unknown tag or flag, or an end inside.
    #[error("50 NotATable")]
    NotATable,
    #[error("51 Version")]
    Version,
    /// A number out of range, a count of 0, a limit that is passed.
    #[error("52 BadNumber")]
    BadNumber,
    /// A routine calls one whose rank isn't lower.
    #[error("53 RankRises")]
    RankRises,
    /// Octets after the table.
    #[error("54 Trailing")]
    Trailing,
    /// A routine that is called has no instruction but `Align`.
    #[error("55 EmptyRoutine")]
    EmptyRoutine,
    #[error("no memory")]
    NoMemory,
}

impl From<AllocError> for TableFault {
    ghost from_gives = { λ _ fault. fault ≡ NoMemory };

    fn from(_error: AllocError) -> TableFault {
        TableFault::NoMemory
    }
}

impl<T: Drop> From<AllocFailed<T>> for TableFault {
    ghost from_gives = { λ _ fault. fault ≡ NoMemory };

    fn from(_error: AllocFailed<T>) -> TableFault {
        TableFault::NoMemory
    }
}

/// Why no program was made of a model. A fault has its number and name as its text.
#[derive(Debug, Drop, Error)]
pub enum GenFault {
    /// The program would pass a limit.
    #[error("70 Limit")]
    Limit,
    #[error("no memory")]
    NoMemory,
}

impl From<AllocError> for GenFault {
    ghost from_gives = { λ _ fault. fault ≡ NoMemoryToMake };

    fn from(_error: AllocError) -> GenFault {
        GenFault::NoMemory
    }
}

impl<T: Drop> From<AllocFailed<T>> for GenFault {
    ghost from_gives = { λ _ fault. fault ≡ NoMemoryToMake };

    fn from(_error: AllocFailed<T>) -> GenFault {
        GenFault::NoMemory
    }
}
