//! Why a source isn't a list of tokens.

ghost use Rattle.std.specs.Prelude.{◌≡◌};
ghost use Rattle.idl_lexer.specs.declared.fault.LexFault.TheVariants.{NoMemory};

use std::alloc::{AllocError, AllocFailed};
use thiserror::Error;

/// Where something begins in a source: its line, counted from 1, and the octets before it.
#[derive(Clone, Copy)]
pub struct Start {
    pub line: usize,
    pub octet: usize,
}

/// For what is read of a token, which has no fault.
pub(crate) const NOWHERE: Start = Start { line: 0, octet: 0 };

/// The first fault of a source, with the place up to which the source is tokens: its line, counted
/// from 1, and the octets before it. That is where an unfinished comment or literal begins.
#[derive(Clone, Copy, Debug, PartialEq, Eq, Drop, Error)]
pub enum LexFault {
    /// A character that begins no token, or one outside ASCII that isn't in a comment.
    #[error("1 BadChar line {line}")]
    BadChar { line: usize, octet: usize },
    /// A `/*` without its `*/`.
    #[error("2 OpenComment line {line}")]
    OpenComment { line: usize, octet: usize },
    /// A literal that isn't closed on its line, or a character literal of none or several.
    #[error("3 OpenLiteral line {line}")]
    OpenLiteral { line: usize, octet: usize },
    /// An integer literal with a wrong digit, over 64 bits, or with more of a word behind it.
    #[error("4 BadNumber line {line}")]
    BadNumber { line: usize, octet: usize },
    /// An escape that isn't one, that is over 255, or a zero octet in a text.
    #[error("5 BadEscape line {line}")]
    BadEscape { line: usize, octet: usize },
    /// A line that begins with `#` and has none of the known forms.
    #[error("6 BadDirective line {line}")]
    BadDirective { line: usize, octet: usize },
    /// A word that differs from a keyword only in the case of letters.
    #[error("7 KeywordCase line {line}")]
    KeywordCase { line: usize, octet: usize },
    /// Memory was refused.
    #[error("no memory")]
    NoMemory,
}

impl From<AllocError> for LexFault {
    ghost from_gives = { λ _ e. e ≡ NoMemory };

    fn from(_: AllocError) -> Self {
        LexFault::NoMemory
    }
}

impl<T: Drop> From<AllocFailed<T>> for LexFault {
    ghost from_gives = { λ _ e. e ≡ NoMemory };

    fn from(_: AllocFailed<T>) -> Self {
        LexFault::NoMemory
    }
}
