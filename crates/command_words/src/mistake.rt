//! Why words ask for nothing.

ghost use Rattle.std.specs.Prelude.{◌≡◌};
ghost use Rattle.command_words.specs.declared.mistake.Mistake.TheVariants.{NoMemory};

use std::alloc::AllocError;
use thiserror::Error;

/// A mistake has as its text whole lines for standard error.
#[derive(Debug, Drop, Error)]
pub enum Mistake {
    /// The words aren't those of a command.
    #[error(transparent)]
    Usage(clap::Error),
    /// The word for the byte order is neither of the two.
    #[error("{0}idlc: order is big or little\n")]
    BadOrder(clap::Error),
    /// A value to encode is named twice, or not at all.
    #[error("idlc: a value is HEX or --text TEXT\n")]
    HexOrText,
    /// `clap` passed words that ask for nothing, which its contract doesn't rule out.
    #[error("idlc: a word is missing\n")]
    NoWord,
    #[error("idlc: no memory\n")]
    NoMemory,
}

impl From<AllocError> for Mistake {
    ghost from_gives = { λ _ mistake. mistake ≡ NoMemory };

    fn from(_error: AllocError) -> Mistake {
        Mistake::NoMemory
    }
}
