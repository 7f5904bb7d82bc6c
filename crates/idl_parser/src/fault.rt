//! Why a list of tokens is no IDL specification.

ghost use Rattle.std.specs.Prelude.{◌≡◌};
ghost use Rattle.idl_parser.specs.declared.fault.ParseFault.TheVariants.{NoMemory};

use std::alloc::{AllocError, AllocFailed};
use thiserror::Error;

/// The first fault in the order of reading, with its token's line and its number among the tokens, counted from 0.
#[derive(Clone, Copy, Debug, PartialEq, Eq, Drop, Error)]
pub enum ParseFault {
    /// The token can't stand here.
    #[error("10 Unexpected line {line}")]
    Unexpected {
        at: usize,
        line: usize,
    },
    /// The tokens end inside a definition. The line is the last token's.
    #[error("11 EndOfFile line {line}")]
    EndOfFile {
        line: usize,
    },
    /// A keyword of a part of IDL that isn't served.
    #[error("12 LeftOut line {line}")]
    LeftOut {
        what: &'static str,
        at: usize,
        line: usize,
    },
    /// More than 64 modules, types and parentheses one inside another. The token is the mark that
    /// opens the 65th.
    #[error("13 TooDeep line {line}")]
    TooDeep {
        at: usize,
        line: usize,
    },
    /// Memory was refused.
    #[error("no memory")]
    NoMemory,
}

impl From<AllocError> for ParseFault {
    ghost from_gives = { λ _ e. e ≡ NoMemory };

    fn from(_: AllocError) -> Self {
        ParseFault::NoMemory
    }
}

impl<T: Drop> From<AllocFailed<T>> for ParseFault {
    ghost from_gives = { λ _ e. e ≡ NoMemory };

    fn from(_: AllocFailed<T>) -> Self {
        ParseFault::NoMemory
    }
}
