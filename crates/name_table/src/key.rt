//! Words in scopes, whatever the case of their letters.

ghost use Rattle.std.specs.Prelude.{◌≡◌, map};
ghost use Rattle.std.specs.Char.{to_ascii_lowercase};
ghost use Rattle.name_table.specs.inner.Codes.{code_of};

use crate::scope::Scope;

/// A word. Words that differ only in the case of their letters are equal.
#[derive(Clone, Copy)]
pub struct Word<'a> {
    pub text: &'a str,
    /// Where two have different codes they differ.
    pub code: u64,
    pub ghost coded: { code ≡ code_of (map to_ascii_lowercase text.now) },
}

/// A word in a scope.
#[derive(Clone, Copy, PartialEq, Eq, PartialOrd, Ord)]
pub struct Key<'a> {
    pub scope: Scope,
    pub word: Word<'a>,
}

/// The code of a text, whatever the case of its letters.
#[tactic(auto, unfolding(crate::specs::inner::Codes::code_of))]
fn code_of(text: &str) -> u64
    ensures { result ≡ code_of (map to_ascii_lowercase text.now) }
{
    let mut code: u64 = 0;
    for octet in text.as_bytes() {
        code = code
            .wrapping_mul(257)
            .wrapping_add(octet.to_ascii_lowercase() as u64);
    }
    code
}

impl<'a> Word<'a> {
    pub fn new(text: &'a str) -> Self
        ensures { result.text.now ≡ text.now }
    {
        Word {
            text,
            code: code_of(text),
        }
    }
}
