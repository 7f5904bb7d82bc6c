//! The tokens of IDL (ISO/IEC 19500-1, lexical conventions).

ghost use Rattle.idl_lexer.specs.Forms.{HasForm};

/// What a token is.
#[derive(Clone, Copy, Debug, PartialEq, Eq)]
pub enum Kind {
    /// An identifier, with the underscore that escapes it, if there is one.
    Ident,
    Keyword,
    /// One mark of punctuation; `>` is always alone.
    Punct,
    /// An octal, decimal or hexadecimal integer of at most 64 bits.
    Number,
    /// A character literal, with its quotes and escapes.
    CharLit,
    /// A text literal, with its quotes and escapes.
    TextLit,
    /// A pragma for repository ids, from its `#` to the end of its line.
    Pragma,
}

/// A token: its text is the source from `start` on, counted in octets, and `line` counts from 1. A
/// text that isn't one token of the kind makes none.
#[derive(Clone, Copy, Debug, PartialEq, Eq)]
pub struct Token<'a> {
    pub kind: Kind,
    // beside the kind, so that a token takes 32 octets
    pub line: u32,
    pub text: &'a str,
    pub start: usize,
    pub ghost form: { HasForm kind text.now },
}

impl<'a> Token<'a> {
    ghost use Rattle.std.specs.Prelude.{◌≡◌, ◌<◌, ◌^◌, nat_eq};
    ghost use Rattle.std.specs.Option.{SomeIff};
    ghost use Rattle.idl_lexer.specs.Tokens.{end_of, name_of};

    /// The name that an identifier stands for: its text without one leading underscore, which only
    /// keeps the word from being a keyword (escaped identifiers). The text of any other token as it
    /// is. Takes no memory.
    pub fn name(&self) -> &'a str
        ensures { result.now ≡ name_of self.now.kind self.now.text.now }
    {
        match self.kind {
            Kind::Ident => self.text.strip_prefix('_').unwrap_or(self.text),
            _ => self.text,
        }
    }

    /// Where the source goes on behind the token, if a `usize` can tell. No field has it, since a
    /// file has many tokens.
    pub fn end(&self) -> Option<usize>
        ensures { SomeIff result (end_of self.now < 2 ^ 64) (end_of self.now) }
    {
        self.start.checked_add(self.text.len())
    }

    /// Whether another token begins where this one ends.
    pub fn touches(&self, next: &Token<'_>) -> bool
        ensures { result ≡ nat_eq (end_of self.now) next.now.start }
    {
        let start = next.start;
        match self.end() {
            Some(end) => end == start,
            None => false,
        }
    }
}
