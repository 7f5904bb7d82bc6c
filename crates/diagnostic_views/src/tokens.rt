//! Faults of tokens.

use crate::facts::Known;
use idl_compiler::CompileFault;
use idl_lexer::LexFault;
use std::alloc::{AllocError, Global};

/// Where a fault stands, and its sentence.
fn words_of(fault: LexFault) -> Option<(usize, &'static str)> {
    Some(match fault {
        LexFault::BadChar { line: 0, octet } => (octet, "the file isn't UTF-8 from here on"),
        LexFault::BadChar { octet, .. } => (octet, "a character that begins no token"),
        LexFault::OpenComment { octet, .. } => (octet, "a comment that is never closed"),
        LexFault::OpenLiteral { octet, .. } => (
            octet,
            "a literal that isn't closed on its line, or a character literal of none or several",
        ),
        LexFault::BadNumber { octet, .. } => (
            octet,
            "a number with a wrong digit, over 18446744073709551615, or with more of a word behind it",
        ),
        LexFault::BadEscape { octet, .. } => (
            octet,
            "a literal with a backslash that begins no escape, or with a zero octet",
        ),
        LexFault::BadDirective { octet, .. } => (
            octet,
            "neither a line marker nor a pragma of a right form: a preprocessor comes first",
        ),
        LexFault::KeywordCase { octet, .. } => (
            octet,
            "a word that differs from a keyword in the case of its letters alone",
        ),
        LexFault::NoMemory => return None,
    })
}

/// Whether a number with a point or an exponent stands at the front.
fn is_floating(octets: &[u8]) -> bool {
    let end = octets.iter().position(|octet| !octet.is_ascii_digit());
    let (digits, rest) = octets.split_at(end.unwrap_or(octets.len()));
    match rest {
        [b'.', next, ..] => !digits.is_empty() || next.is_ascii_digit(),
        [b'.'] => !digits.is_empty(),
        [b'e' | b'E', next, ..] => !digits.is_empty() && matches!(next, b'0'..=b'9' | b'+' | b'-'),
        _ => false,
    }
}

/// The sentence for what IDL has at the front, where it isn't served.
fn unserved(octets: &[u8]) -> Option<&'static str> {
    if octets.first() == Some(&b'~') {
        return Some("the operator '~' isn't served");
    }
    if is_floating(octets) {
        return Some("floating and fixed point aren't served");
    }
    None
}

/// What is known of the fault.
pub(crate) fn of_tokens(
    alloc: Global,
    source: &[u8],
    fault: LexFault,
) -> Result<Option<Known>, AllocError> {
    let Some((octet, words)) = words_of(fault) else {
        return Ok(None);
    };
    let words = unserved(&source[octet.min(source.len())..]).unwrap_or(words);
    let sentence = String::from_str(alloc, words)?;
    Ok(Known::alone(CompileFault::Tokens(fault), octet, sentence))
}
