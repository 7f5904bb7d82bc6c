//! The identifiers of a name in a pragma, one by one.

ghost use Rattle.std.specs.Prelude.{◌≡◌, [], not};
ghost use Rattle.idl_lexer.specs.Octets.{is_word, past};

use crate::octets::{is_word_octet, word_len};
use crate::pragmas::ascii_text;

/// The identifiers that are left of a name, each as it is written.
#[derive(Clone, Copy, Drop)]
pub struct Identifiers<'a> {
    rest: &'a [u8],
}

/// What follows the octets that stand in no word.
fn past_others(octets: &[u8]) -> &[u8]
    ensures { result.now ≡ past (λ c. not (is_word c)) octets.now }
{
    let first = octets.iter().position(|octet| is_word_octet(*octet));
    octets.split_at(first.unwrap_or(octets.len())).1
}

impl<'a> Identifiers<'a> {
    ghost use Rattle.idl_lexer.specs.Directives.{IsScopedName};
    ghost use Rattle.idl_lexer.specs.Identifiers.{identifiers_of, words};
    ghost use Rattle.idl_lexer.specs.IdentifiersLeft.{words_left};

    /// The identifiers of a pragma's name, in order. Takes no memory.
    pub fn new(name: &'a str) -> Self
        ensures words { words_left result ≡ words name.now }
        ensures scoped { (scoped : IsScopedName name.now []) → words_left result ≡ identifiers_of scoped }
    {
        Identifiers {
            rest: name.as_bytes(),
        }
    }
}

impl<'a> Iterator for Identifiers<'a> {
    ghost use Rattle.std.specs.Iterator.{YieldsFirstRef, item_count};
    ghost use Rattle.idl_lexer.specs.IdentifiersLeft.{words_left};

    type Item = &'a str;

    ghost next_gives = { YieldsFirstRef words_left };

    ghost remaining = { item_count words_left };

    fn next(&mut self) -> Option<&'a str> {
        let from = past_others(self.rest);
        let (word, rest) = from.split_at(word_len(from));
        self.rest = rest;
        if word.is_empty() {
            None
        } else {
            Some(ascii_text(word))
        }
    }
}
