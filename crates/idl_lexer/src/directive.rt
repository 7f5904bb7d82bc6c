//! Lines that begin with `#`: markers of lines, and pragmas (ISO/IEC 19500-1, preprocessing, pragma
//! directives for repository ids).

ghost use Rattle.std.specs.Prelude.{◌≡◌, ◌≢◌, ◌-◌, ◌<◌, ◌≤◌, ◌==◌, ◌||◌, ◌↔◌, ◌⊎◌, ℕ, List, [], length, take, drop, slice_index};
ghost use Rattle.std.specs.Prelude.{IfErr, IfNone, IfOk, IfSome, IsTrue};
ghost use Rattle.std.specs.Char.{is_ascii_digit};
ghost use Rattle.idl_lexer.specs.Octets.{is_blank, past, run};
ghost use Rattle.idl_lexer.specs.Directives.{before_quote, directive_part, from_quote, is_kept_word, past_word};
ghost use Rattle.idl_lexer.specs.Directives.{pragma_part, pragma_rest, version_place, word_of};
ghost use Rattle.idl_lexer.specs.Directives.{IsDigits, IsFile, IsFresh, IsKept, IsLineDirective, IsMark, IsMarker, IsName};
ghost use Rattle.idl_lexer.specs.Directives.{IsIdEnd, IsOtherPragma, IsPragma, IsQuotedEnd, IsScope, IsScopedName};
ghost use Rattle.idl_lexer.specs.Directives.{IsSkipped, IsVersion, IsVersionEnd};
ghost use Rattle.idl_lexer.specs.Faults.{IsDirectiveFault};
ghost use Rattle.idl_lexer.specs.Lexemes.{HasNoForm};
ghost use Rattle.idl_lexer.specs.inner.Steps.{IsLexeme};

use crate::fault::{LexFault, Start};
use crate::lexeme::Lexeme;
use crate::octets::{
    are_ascii, are_blank, are_blanks_or_digits, behind_first, blank_len, digit_len, is_blank_octet,
    line_len, word_len,
};
use crate::token::Kind;
use crate::word::identifier_len;
use memchr::{memchr, memrchr};

fn past_blanks(octets: &[u8]) -> &[u8]
    ensures value { result.now ≡ past is_blank octets.now }
    ensures within { length result.now ≤ length octets.now }
{
    octets.split_at(blank_len(octets)).1
}

/// The word at the front, and what follows it and the blanks behind it.
pub(crate) fn split_word(octets: &[u8]) -> (&[u8], &[u8])
    ensures word { result.0.now ≡ word_of octets.now }
    ensures rest { result.1.now ≡ past_word octets.now }
{
    let (word, rest) = octets.split_at(word_len(octets));
    (word, past_blanks(rest))
}

fn has_hash(line: &[u8]) -> bool
    ensures { IsTrue result ↔ (slice_index line.now 0 ≡ 35) }
{
    line.first() == Some(&b'#')
}

/// What follows the `#` and the blanks behind it.
fn behind_hash(line: &[u8]) -> &[u8]
    ensures { result.now ≡ directive_part line.now }
{
    past_blanks(behind_first(line))
}

/// What follows the word `pragma` and the blanks behind it.
pub(crate) fn behind_pragma(line: &[u8]) -> &[u8]
    ensures { result.now ≡ pragma_part line.now }
{
    split_word(behind_hash(line)).1
}

/// What stands before the first quote, and the rest from that quote on.
pub(crate) fn split_at_quote(octets: &[u8]) -> (&[u8], &[u8])
    ensures before { result.0.now ≡ before_quote octets.now }
    ensures from { result.1.now ≡ from_quote octets.now }
{
    octets.split_at(memchr(b'"', octets).unwrap_or(octets.len()))
}

fn digits(octets: &[u8]) -> Option<&[u8]>
    ensures form { IfSome result (λ r. IsDigits octets.now r.now) }
    ensures none { IfNone result ((rest : List ℕ) → IsDigits octets.now rest → ⊥) }
{
    match octets {
        [b'0'..=b'9', ..] => Some(octets.split_at(digit_len(octets)).1),
        _ => None,
    }
}

fn mark(octets: &[u8], octet: u8) -> Option<&[u8]>
    ensures form { IfSome result (λ r. IsMark octet octets.now r.now) }
    ensures none { IfNone result ((rest : List ℕ) → octet ≢ 0 → IsMark octet octets.now rest → ⊥) }
{
    match octets {
        [first, rest @ ..] if *first == octet => Some(rest),
        _ => None,
    }
}

fn name(octets: &[u8]) -> Option<&[u8]>
    ensures form { IfSome result (λ r. IsName octets.now r.now) }
    ensures within { IfSome result (λ r. length r.now ≤ length octets.now) }
    ensures none { IfNone result ((rest : List ℕ) → IsName octets.now rest → ⊥) }
{
    let len = identifier_len(octets)?;
    Some(past_blanks(octets.split_at(len).1))
}

fn scope(octets: &[u8]) -> Option<&[u8]>
    ensures form { IfSome result (λ r. IsScope octets.now r.now) }
    ensures shorter { IfSome result (λ r. length r.now < length octets.now) }
    ensures none { IfNone result ((rest : List ℕ) → IsScope octets.now rest → ⊥) }
{
    match octets {
        [b':', b':', rest @ ..] => Some(past_blanks(rest)),
        _ => None,
    }
}

fn scoped_name(octets: &[u8]) -> Option<&[u8]>
    ensures form { IfSome result (λ r. IsScopedName octets.now r.now) }
    ensures end { IfSome result (λ r. IsScopedName octets.now [] → r.now ≡ []) }
    ensures none { IfNone result (IsScopedName octets.now [] → ⊥) }
{
    let mut rest = name(scope(octets).unwrap_or(octets))?;
    while let Some(inner) = scope(rest) {
        rest = name(inner)?;
    }
    Some(rest)
}

fn is_scoped_name(octets: &[u8]) -> bool
    ensures { IsTrue result ↔ IsScopedName octets.now [] }
{
    match scoped_name(octets) {
        Some(rest) => rest.is_empty(),
        None => false,
    }
}

fn file(octets: &[u8]) -> Option<&[u8]>
    ensures form { IfSome result (λ r. IsFile octets.now r.now) }
    ensures one { IfSome result (λ r. (rest : List ℕ) → IsFile octets.now rest → rest ≡ r.now) }
    ensures none { IfNone result ((rest : List ℕ) → IsFile octets.now rest → ⊥) }
{
    if octets.first() != Some(&b'"') {
        return None;
    }
    let mut at = 1;
    while at < octets.len() && octets[at] != b'"' {
        at += if octets[at] == b'\\' { 2 } else { 1 };
    }
    if at < octets.len() {
        Some(octets.split_at(at + 1).1)
    } else {
        None
    }
}

fn is_quoted_end(octets: &[u8]) -> bool
    ensures { IsTrue result ↔ IsQuotedEnd octets.now }
{
    let (_, rest) = split_at_quote(behind_first(octets));
    octets.first() == Some(&b'"') && rest.first() == Some(&b'"') && are_blank(behind_first(rest))
}

fn begins_with_digit(octets: &[u8]) -> bool
    ensures { result ≡ is_ascii_digit (slice_index octets.now 0) }
{
    octets.first().is_some_and(|octet| octet.is_ascii_digit())
}

/// Where the first digit behind a blank stands, or the end.
pub(crate) fn version_at(octets: &[u8]) -> usize
    ensures value { result ≡ version_place octets.now }
    ensures within { result ≤ length octets.now }
{
    let mut at = 0;
    while at < octets.len() {
        let blank = is_blank_octet(octets[at]);
        at += 1;
        if blank && begins_with_digit(octets.split_at(at).1) {
            return at;
        }
    }
    at
}

/// How many digits and points stand at the front.
pub(crate) fn version_len(octets: &[u8]) -> usize
    ensures value { result ≡ run (λ c. is_ascii_digit c || c == 46) octets.now }
    ensures within { result ≤ length octets.now }
{
    octets
        .iter()
        .position(|octet| !octet.is_ascii_digit() && *octet != b'.')
        .unwrap_or(octets.len())
}

/// What follows the version number at the front.
fn version_number(octets: &[u8]) -> Option<&[u8]>
    ensures form { IfSome result (λ r. IsVersion octets.now r.now) }
    ensures none { IfNone result ((rest : List ℕ) → IsVersion octets.now rest → ⊥) }
{
    digits(mark(digits(octets)?, b'.')?)
}

fn is_id_end(octets: &[u8]) -> bool
    ensures { IsTrue result ↔ IsIdEnd octets.now }
{
    let (name, text) = split_at_quote(octets);
    is_scoped_name(name) && is_quoted_end(text)
}

fn is_version_end(octets: &[u8]) -> bool
    ensures { IsTrue result ↔ IsVersionEnd octets.now }
{
    let (name, number) = octets.split_at(version_at(octets));
    match version_number(number) {
        Some(rest) => is_scoped_name(name) && are_blank(rest),
        None => false,
    }
}

fn is_pragma(line: &[u8]) -> bool
    ensures { IsTrue result ↔ IsPragma line.now }
{
    let word = split_word(behind_hash(line)).0;
    has_hash(line) && word == b"pragma".as_slice()
}

/// Whether the word makes its pragma one for repository ids.
fn is_kept_name(word: &[u8]) -> bool
    ensures { result ≡ is_kept_word word.now }
{
    word == b"prefix".as_slice() || word == b"ID".as_slice() || word == b"version".as_slice()
}

/// Whether the line is a pragma for repository ids.
fn is_kept(line: &[u8]) -> bool
    ensures { IsTrue result ↔ IsKept line.now }
{
    let (word, rest) = split_word(behind_pragma(line));
    if !is_pragma(line) {
        false
    } else if word == b"prefix".as_slice() {
        is_quoted_end(rest)
    } else if word == b"ID".as_slice() {
        is_id_end(rest)
    } else {
        word == b"version".as_slice() && is_version_end(rest)
    }
}

fn is_marker(line: &[u8]) -> bool
    ensures { IsTrue result ↔ IsMarker line.now }
{
    let Some(rest) = digits(behind_hash(line)) else {
        return false;
    };
    match file(past_blanks(rest)) {
        Some(numbers) => has_hash(line) && are_blanks_or_digits(numbers),
        None => false,
    }
}

fn is_line_directive(line: &[u8]) -> bool
    ensures { IsTrue result ↔ IsLineDirective line.now }
{
    let word = split_word(behind_hash(line)).0;
    has_hash(line) && word == b"line".as_slice()
}

/// A pragma whose first word is none of the kept ones.
fn is_other_pragma(line: &[u8]) -> bool
    ensures { IsTrue result ↔ IsOtherPragma line.now }
{
    let word = split_word(behind_pragma(line)).0;
    is_pragma(line) && !is_kept_name(word)
}

/// Whether the line is a directive that says nothing about the types.
fn is_skipped(line: &[u8]) -> bool
    ensures { IsTrue result ↔ IsSkipped line.now }
{
    is_marker(line) || is_line_directive(line) || is_other_pragma(line)
}

/// Where the last line begins.
fn last_line(octets: &[u8]) -> usize
    ensures within { result ≤ length octets.now }
    ensures begins { (result ≡ 0) ⊎ (slice_index octets.now (result - 1) ≡ 10) }
    ensures last { (k : ℕ) → result ≤ k → k < length octets.now → slice_index octets.now k ≢ 10 }
{
    match memrchr(b'\n', octets) {
        Some(at) => at + 1,
        None => 0,
    }
}

/// Whether only blanks stand on the last line of what comes before.
fn is_fresh(before: &[u8]) -> bool
    ensures { IsTrue result ↔ IsFresh before.now }
{
    are_blank(before.split_at(last_line(before)).1)
}

/// The directive at the front, a whole line: a pragma for repository ids is a token, and a marker of
/// a line or another pragma is skipped.
///
/// # Errors
///
/// `BadChar` where something other than blanks stands before it on its line, and for a character
/// outside ASCII; else `BadDirective`.
pub(crate) fn directive(before: &[u8], octets: &[u8], start: Start) -> Result<Lexeme, LexFault>
    requires { slice_index octets.now 0 ≡ 35 }
    ensures form { IfOk result (λ l. IsLexeme before.now octets.now l) }
    ensures refused { IfErr result (λ _. HasNoForm before.now octets.now) }
    ensures told { IfErr result (IsDirectiveFault before.now octets.now start) }
{
    let Start { line, octet } = start;
    let text = octets.split_at(line_len(octets)).0;
    if !is_fresh(before) || !are_ascii(text) {
        return Err(LexFault::BadChar { line, octet });
    }
    if is_kept(text) {
        Ok(Lexeme::token(Kind::Pragma, text.len()))
    } else if is_skipped(text) {
        Ok(Lexeme::skipped(text.len()))
    } else {
        Err(LexFault::BadDirective { line, octet })
    }
}
