//! Classes of octets, and how many of a class stand at the front of a text.

ghost use Rattle.std.specs.Prelude.{◌≡◌, ◌≤◌, ◌==◌, ◌||◌, not, drop, length, count_by};
ghost use Rattle.std.specs.Char.{is_ascii, is_ascii_digit, is_ascii_hexdigit};
ghost use Rattle.std.specs.List.{list_all};
ghost use Rattle.idl_lexer.specs.Octets.{is_blank, is_line_feed, is_octal, is_word, run};

use memchr::memchr;

pub(crate) fn is_blank_octet(octet: u8) -> bool
    ensures { result ≡ is_blank octet }
{
    octet == b' ' || (9 <= octet && octet <= 13)
}

/// Whether the octet is a letter, a digit or an underscore.
pub(crate) fn is_word_octet(octet: u8) -> bool
    ensures { result ≡ is_word octet }
{
    octet.is_ascii_alphanumeric() || octet == b'_'
}

fn is_octal_octet(octet: u8) -> bool
    ensures { result ≡ is_octal octet }
{
    b'0' <= octet && octet <= b'7'
}

pub(crate) fn blank_len(octets: &[u8]) -> usize
    ensures value { result ≡ run is_blank octets.now }
    ensures within { result ≤ length octets.now }
{
    octets
        .iter()
        .position(|octet| !is_blank_octet(*octet))
        .unwrap_or(octets.len())
}

/// How many letters, digits and underscores stand at the front.
pub(crate) fn word_len(octets: &[u8]) -> usize
    ensures value { result ≡ run is_word octets.now }
    ensures within { result ≤ length octets.now }
{
    octets
        .iter()
        .position(|octet| !is_word_octet(*octet))
        .unwrap_or(octets.len())
}

pub(crate) fn digit_len(octets: &[u8]) -> usize
    ensures value { result ≡ run is_ascii_digit octets.now }
    ensures within { result ≤ length octets.now }
{
    octets
        .iter()
        .position(|octet| !octet.is_ascii_digit())
        .unwrap_or(octets.len())
}

pub(crate) fn octal_len(octets: &[u8]) -> usize
    ensures value { result ≡ run is_octal octets.now }
    ensures within { result ≤ length octets.now }
{
    octets
        .iter()
        .position(|octet| !is_octal_octet(*octet))
        .unwrap_or(octets.len())
}

pub(crate) fn hex_len(octets: &[u8]) -> usize
    ensures value { result ≡ run is_ascii_hexdigit octets.now }
    ensures within { result ≤ length octets.now }
{
    octets
        .iter()
        .position(|octet| !octet.is_ascii_hexdigit())
        .unwrap_or(octets.len())
}

/// How long the line at the front is, without its line feed.
pub(crate) fn line_len(octets: &[u8]) -> usize
    ensures value { result ≡ run (λ c. not (is_line_feed c)) octets.now }
    ensures within { result ≤ length octets.now }
{
    memchr(b'\n', octets).unwrap_or(octets.len())
}

/// What follows the first octet.
pub(crate) fn behind_first(octets: &[u8]) -> &[u8]
    ensures { result.now ≡ drop 1 octets.now }
{
    match octets {
        [_, rest @ ..] => rest,
        [] => octets,
    }
}

/// How many line feeds there are.
pub(crate) fn line_feeds(octets: &[u8]) -> usize
    ensures value { result ≡ count_by is_line_feed octets.now }
    ensures within { result ≤ length octets.now }
{
    octets.iter().filter(|octet| **octet == b'\n').count()
}

pub(crate) fn are_blank(octets: &[u8]) -> bool
    ensures { result ≡ list_all is_blank octets.now }
{
    octets.iter().all(|octet| is_blank_octet(*octet))
}

pub(crate) fn are_blanks_or_digits(octets: &[u8]) -> bool
    ensures { result ≡ list_all (λ o. is_blank o || is_ascii_digit o) octets.now }
{
    octets
        .iter()
        .all(|octet| is_blank_octet(*octet) || octet.is_ascii_digit())
}

pub(crate) fn are_ascii(octets: &[u8]) -> bool
    ensures { result ≡ list_all is_ascii octets.now }
{
    octets.iter().all(|octet| octet.is_ascii())
}
