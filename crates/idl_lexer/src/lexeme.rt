//! What one step over the source finds.

use crate::token::Kind;

/// A token of a kind, or with no kind something to skip; `len` is in octets.
#[derive(Clone, Copy)]
pub(crate) struct Lexeme {
    pub(crate) kind: Option<Kind>,
    pub(crate) len: usize,
}

impl Lexeme {
    ghost use Rattle.std.specs.Prelude.{◌≡◌};

    pub(crate) fn token(kind: Kind, len: usize) -> Self
        ensures { result ≡ record { kind = Some kind; len = len } }
    {
        Lexeme {
            kind: Some(kind),
            len,
        }
    }

    pub(crate) fn skipped(len: usize) -> Self
        ensures { result ≡ record { kind = None; len = len } }
    {
        Lexeme { kind: None, len }
    }
}
