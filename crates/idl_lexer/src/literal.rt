//! Character and text literals (ISO/IEC 19500-1, lexical conventions, literals).

ghost use Rattle.std.specs.Prelude.{◌≡◌, ◌<◌, ◌≤◌, ℕ, length, drop, slice_index, IfErr, IfOk, IfSome, IsOk, IsSome, true};
ghost use Rattle.std.specs.Char.{is_ascii_hexdigit};
ghost use Rattle.std.specs.Str.Parse.{digits_value, IsNumeral};
ghost use Rattle.idl_lexer.specs.Octets.{is_octal};
ghost use Rattle.idl_lexer.specs.Literals.{is_escape_letter, letter_value, IsCharacter, IsCharLiteral};
ghost use Rattle.idl_lexer.specs.Literals.{IsEscapeDigits, IsTextLiteral};
ghost use Rattle.idl_lexer.specs.Faults.{IsCharFault, IsTextFault, character_fault, escape_fault, if_ascii};
ghost use Rattle.idl_lexer.specs.declared.fault.LexFault.TheVariants.{BadEscape};

use crate::fault::{LexFault, Start};
use crate::number::number_of;
use crate::octets::{are_ascii, hex_len, octal_len};
use memchr::memchr2;

/// The octet that the digits write in this radix, where it is one.
fn octet_of(digits: &[u8], radix: u32) -> Option<u8>
    requires low { 2 ≤ radix }
    requires high { radix ≤ 36 }
    ensures some { IfSome result (λ v. 0 < length digits.now) }
    ensures value { IfSome result (λ v. v ≡ digits_value radix digits.now) }
    ensures octet { IfSome result (λ v. v < 256) }
    ensures complete { IsNumeral radix digits.now → digits_value radix digits.now < 256 → IsSome result }
{
    u8::try_from(number_of(digits, radix)?).ok()
}

/// The escape at the front, a backslash and one to three octal digits.
fn octal_escape(octets: &[u8], start: Start) -> Result<(u8, usize), LexFault>
    requires opens { slice_index octets.now 0 ≡ 92 }
    ensures form { (quote : ℕ) → IfOk result (λ c. IsCharacter quote octets.now c.1 c.0) }
    ensures within { IfOk result (λ c. c.1 ≤ length octets.now) }
    ensures long { IfOk result (λ c. 0 < c.1) }
    ensures complete { (m v : ℕ) → IsEscapeDigits is_octal 8 3 (drop 1 octets.now) m v → v < 256 → IsOk result }
    ensures told { IfErr result (λ fault. fault ≡ BadEscape start.line start.octet) }
{
    let Start { line, octet } = start;
    let digits = octets.split_at(1).1;
    let len = octal_len(digits).min(3);
    match octet_of(digits.split_at(len).0, 8) {
        Some(value) => Ok((value, len + 1)),
        None => Err(LexFault::BadEscape { line, octet }),
    }
}

/// The escape at the front, a backslash, an x and one or two hexadecimal digits.
fn hex_escape(octets: &[u8], start: Start) -> Result<(u8, usize), LexFault>
    requires opens { slice_index octets.now 0 ≡ 92 }
    requires mark { slice_index octets.now 1 ≡ 120 }
    ensures form { (quote : ℕ) → IfOk result (λ c. IsCharacter quote octets.now c.1 c.0) }
    ensures within { IfOk result (λ c. c.1 ≤ length octets.now) }
    ensures long { IfOk result (λ c. 0 < c.1) }
    ensures complete { (m v : ℕ) → IsEscapeDigits is_ascii_hexdigit 16 2 (drop 2 octets.now) m v → IsOk result }
    ensures told { IfErr result (λ fault. fault ≡ BadEscape start.line start.octet) }
{
    let Start { line, octet } = start;
    let digits = octets.split_at(2).1;
    let len = hex_len(digits).min(2);
    match octet_of(digits.split_at(len).0, 16) {
        Some(value) => Ok((value, len + 2)),
        None => Err(LexFault::BadEscape { line, octet }),
    }
}

fn letter_escape(letter: u8) -> Option<u8>
    ensures form { IfSome result (λ v. is_escape_letter letter ≡ true) }
    ensures value { IfSome result (λ v. v ≡ letter_value letter) }
    ensures complete { is_escape_letter letter ≡ true → IsSome result }
{
    match letter {
        b'n' => Some(b'\n'),
        b't' => Some(b'\t'),
        b'v' => Some(0x0b),
        b'b' => Some(0x08),
        b'r' => Some(b'\r'),
        b'f' => Some(0x0c),
        b'a' => Some(0x07),
        b'\\' | b'?' | b'\'' | b'"' => Some(letter),
        _ => None,
    }
}

/// The octet that the escape behind a backslash stands for, and its length with the backslash.
fn escape(octets: &[u8], start: Start) -> Result<(u8, usize), LexFault>
    requires { slice_index octets.now 0 ≡ 92 }
    ensures form { (quote : ℕ) → IfOk result (λ c. IsCharacter quote octets.now c.1 c.0) }
    ensures within { IfOk result (λ c. c.1 ≤ length octets.now) }
    ensures long { IfOk result (λ c. 0 < c.1) }
    ensures complete { (quote n v : ℕ) → IsCharacter quote octets.now n v → IsOk result }
    ensures told { IfErr result (λ fault. fault ≡ escape_fault octets.now start) }
{
    let Start { line, octet } = start;
    match octets {
        [_, b'x', ..] => hex_escape(octets, start),
        [_, b'0'..=b'7', ..] => octal_escape(octets, start),
        [_] | [_, b'\n', ..] => Err(LexFault::OpenLiteral { line, octet }),
        [_, letter, ..] if letter.is_ascii() => match letter_escape(*letter) {
            Some(value) => Ok((value, 2)),
            None => Err(LexFault::BadEscape { line, octet }),
        },
        _ => Err(LexFault::BadChar { line, octet }),
    }
}

/// The octet that the character at the front stands for, and how long it is.
pub(crate) fn character(octets: &[u8], quote: u8, start: Start) -> Result<(u8, usize), LexFault>
    ensures form { IfOk result (λ c. IsCharacter quote octets.now c.1 c.0) }
    ensures within { IfOk result (λ c. c.1 ≤ length octets.now) }
    ensures long { IfOk result (λ c. 0 < c.1) }
    ensures complete { (n v : ℕ) → IsCharacter quote octets.now n v → IsOk result }
    ensures told { IfErr result (λ fault. fault ≡ character_fault quote octets.now start) }
{
    let Start { line, octet } = start;
    match octets {
        [b'\\', ..] => escape(octets, start),
        [] | [b'\n', ..] => Err(LexFault::OpenLiteral { line, octet }),
        [first, ..] if *first == quote => Err(LexFault::OpenLiteral { line, octet }),
        [first, ..] if first.is_ascii() => Ok((*first, 1)),
        _ => Err(LexFault::BadChar { line, octet }),
    }
}

/// The fault of a character literal that goes on with these octets: a character outside ASCII in it comes first.
fn unclosed(octets: &[u8], fault: LexFault, start: Start) -> LexFault
    ensures { result ≡ if_ascii octets.now fault start }
{
    let Start { line, octet } = start;
    let inside = octets
        .split_at(memchr2(b'\'', b'\n', octets).unwrap_or(octets.len()))
        .0;
    if are_ascii(inside) {
        fault
    } else {
        LexFault::BadChar { line, octet }
    }
}

/// How long the character literal at the front is.
///
/// # Errors
///
/// `OpenLiteral` where it isn't closed behind its one character, `BadEscape`, and `BadChar` where a
/// character outside ASCII stands anywhere in it.
pub(crate) fn char_literal(octets: &[u8], start: Start) -> Result<usize, LexFault>
    requires { slice_index octets.now 0 ≡ 39 }
    ensures form { IfOk result (λ n. IsCharLiteral octets.now n) }
    ensures within { IfOk result (λ n. n ≤ length octets.now) }
    ensures long { IfOk result (λ n. 0 < n) }
    ensures refused { IfErr result (λ _. (n : ℕ) → IsCharLiteral octets.now n → ⊥) }
    ensures told { IfErr result (IsCharFault octets.now start) }
{
    let Start { line, octet } = start;
    let inner = octets.split_at(1).1;
    match character(inner, b'\'', start) {
        Ok((_, len)) if len < inner.len() && inner[len] == b'\'' => Ok(len + 2),
        Ok((_, len)) => {
            let open = LexFault::OpenLiteral { line, octet };
            Err(unclosed(inner.split_at(len).1, open, start))
        }
        Err(fault) => Err(unclosed(inner, fault, start)),
    }
}

/// How long the text literal at the front is.
///
/// # Errors
///
/// `OpenLiteral` where it isn't closed on its line, `BadEscape` for a wrong escape and for a zero
/// octet, and `BadChar` for a character outside ASCII.
pub(crate) fn text_literal(octets: &[u8], start: Start) -> Result<usize, LexFault>
    requires { slice_index octets.now 0 ≡ 34 }
    ensures form { IfOk result (λ n. IsTextLiteral octets.now n) }
    ensures within { IfOk result (λ n. n ≤ length octets.now) }
    ensures long { IfOk result (λ n. 0 < n) }
    ensures refused { IfErr result (λ _. (n : ℕ) → IsTextLiteral octets.now n → ⊥) }
    ensures told { IfErr result (IsTextFault octets.now start) }
{
    let Start { line, octet } = start;
    let mut at = 1;
    while at < octets.len() && octets[at] != b'"' {
        let (value, len) = character(octets.split_at(at).1, b'"', start)?;
        if value == 0 {
            return Err(LexFault::BadEscape { line, octet });
        }
        at += len;
    }
    if at < octets.len() {
        Ok(at + 1)
    } else {
        Err(LexFault::OpenLiteral { line, octet })
    }
}
