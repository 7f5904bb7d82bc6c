//! Tokens that a tree keeps, names, and lists with commas.

ghost use Rattle.std.specs.Prelude.{◌≡◌, ◌||◌, true, is_some, nat_lt, vec_len};
ghost use Rattle.idl_lexer.specs.Words.{unescaped as unescaped_text};

use idl_lexer::Token;
use std::fmt::{Display, Error as FmtError, Formatter, Write};

/// A token that the tree keeps. Its place in the tree tells its kind.
#[derive(Clone, Copy)]
pub struct Leaf<'a> {
    pub token: Token<'a>,
    /// The number of the token, counted from 0.
    pub number: usize,
}

/// Where a token stands. What is printed is the line.
#[derive(Clone, Copy, Debug, PartialEq, Eq)]
pub struct At {
    /// The number of the token, counted from 0.
    pub token: usize,
    /// The line, counted from 1.
    pub line: usize,
}

impl Display for At {
    fn fmt<W: Write>(&self, f: &mut Formatter<W>) -> Result<(), FmtError> {
        self.line.fmt(f)
    }
}

/// A name with a `::` in it.
pub struct Path<'a> {
    /// The `::` that it begins with, if it does.
    pub root: Option<Leaf<'a>>,
    /// The first identifier.
    pub first: Leaf<'a>,
    /// The identifiers after the first.
    pub rest: Vec<Leaf<'a>>,
    ghost is_scoped: { (is_some root || nat_lt 0 (vec_len rest)) ≡ true },
}

/// A scoped name: identifiers with `::` between them, and maybe one before the first.
pub enum ScopedName<'a> {
    /// An identifier alone.
    Plain(Leaf<'a>),
    Scoped(Box<Path<'a>>),
}

/// One part or more, with commas or nothing between them.
pub struct Listed<T> {
    pub first: T,
    pub rest: Vec<T>,
}

/// What an identifier names: its text without one leading underscore, which only keeps it from
/// being a keyword (escaped identifiers). Takes no memory.
pub fn unescaped<'a>(text: &'a str) -> &'a str
    ensures { result.now ≡ unescaped_text text.now }
{
    text.strip_prefix('_').unwrap_or(text)
}

impl<'a> Leaf<'a> {
    /// The name of an identifier: its text `unescaped`. Takes no memory.
    pub fn name(&self) -> &'a str
        ensures { result.now ≡ unescaped_text self.now.token.text.now }
    {
        unescaped(self.token.text)
    }
}

// A derived drop would be proved again in each crate that lets go of a tree.

impl<'a> Drop for Path<'a> {
    fn drop(self) {
        let Path {
            root: _,
            first: _,
            rest: _,
        } = self;
    }
}

impl<'a> Drop for ScopedName<'a> {
    fn drop(self) {
        match self {
            ScopedName::Plain(_) => {}
            ScopedName::Scoped(_) => {}
        }
    }
}

impl<T: Drop> Drop for Listed<T> {
    fn drop(self) {
        let Listed { first: _, rest: _ } = self;
    }
}
