//! What the pragmas for repository ids say (ISO/IEC 19500-1, pragma directives for repository ids).

ghost use Rattle.std.specs.Prelude.{◌≡◌, ◌↔◌, slice_index, IsTrue};
ghost use Rattle.std.specs.Str.{IsAscii};

use crate::directive::{behind_pragma, split_at_quote, split_word, version_at, version_len};
use crate::octets::behind_first;
use crate::token::Kind;

/// What a pragma for repository ids says. A name is a scoped name as it is written: blanks may stand
/// between its tokens and behind it.
#[derive(Clone, Copy, Debug, PartialEq, Eq)]
pub enum Pragma<'a> {
    /// The prefix of the ids of what is declared after it.
    Prefix { text: &'a str },
    /// The whole id of what the name names.
    Id { name: &'a str, text: &'a str },
    /// The version of what the name names, major and minor with a point between them.
    Version { name: &'a str, number: &'a str },
}

fn is_word(word: &[u8], wanted: &[u8]) -> bool
    ensures { IsTrue result ↔ (word.now ≡ wanted.now) }
{
    word == wanted
}

pub(crate) fn ascii_text(octets: &[u8]) -> &str
    requires { IsAscii octets.now }
    ensures { result.now ≡ octets.now }
{
    match str::from_utf8(octets) {
        Ok(text) => text,
        Err(_) => unreachable!(),
    }
}

/// Whether the name of a pragma begins with `::`.
pub fn is_rooted(name: &str) -> bool
    ensures { IsTrue result ↔ ((slice_index name.now 0 ≡ 58) × (slice_index name.now 1 ≡ 58)) }
{
    match name.as_bytes() {
        [b':', b':', ..] => true,
        _ => false,
    }
}

impl<'a> Pragma<'a> {
    ghost use Rattle.idl_lexer.specs.Forms.{HasForm};
    ghost use Rattle.idl_lexer.specs.Says.{Says};

    /// What a pragma for repository ids says, of its text from the `#` to the end of its line.
    pub fn read(text: &'a str) -> Self
        requires { HasForm Kind.Pragma text.now }
        ensures { Says text.now result }
    {
        let (word, rest) = split_word(behind_pragma(text.as_bytes()));
        if is_word(word, b"prefix") {
            let text = split_at_quote(behind_first(rest)).0;
            Pragma::Prefix {
                text: ascii_text(text),
            }
        } else if is_word(word, b"ID") {
            let (name, quoted) = split_at_quote(rest);
            let text = split_at_quote(behind_first(quoted)).0;
            Pragma::Id {
                name: ascii_text(name),
                text: ascii_text(text),
            }
        } else {
            let (name, number) = rest.split_at(version_at(rest));
            let number = number.split_at(version_len(number)).0;
            Pragma::Version {
                name: ascii_text(name),
                number: ascii_text(number),
            }
        }
    }
}
