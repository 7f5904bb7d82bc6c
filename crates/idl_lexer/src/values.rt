//! What literals stand for (ISO/IEC 19500-1, lexical conventions, literals).

ghost use Rattle.std.specs.Prelude.{◌≡◌, ◌==◌, ◌++◌, length, take, slice_index, IfOk, OnErr};
ghost use Rattle.idl_lexer.specs.Forms.{HasForm};
ghost use Rattle.idl_lexer.specs.Numbers.{number_value as value_of};
ghost use Rattle.idl_lexer.specs.Literals.{ClosedCharacters, IsCharLiteral, IsTextLiteral};

use crate::fault::NOWHERE;
use crate::literal::character;
use crate::number::literal_value;
use crate::octets::behind_first;
use crate::token::Kind;
use std::alloc::AllocError;

/// The value of an integer literal's text.
pub fn number_value(text: &str) -> u64
    requires { HasForm Kind.Number text.now }
    ensures { result ≡ value_of text.now }
{
    match literal_value(text.as_bytes()) {
        Some(value) => value,
        None => unreachable!(),
    }
}

/// The octet for which a character literal stands, of its text with the quotes.
pub fn character_value(text: &str) -> u8
    requires { HasForm Kind.CharLit text.now }
    ensures { (literal : IsCharLiteral text.now (length text.now)) → result ≡ literal.value }
{
    match character(behind_first(text.as_bytes()), b'\'', NOWHERE) {
        Ok((value, _)) => value,
        Err(_) => unreachable!(),
    }
}

fn begins_with_quote(octets: &[u8]) -> bool
    ensures { result ≡ (slice_index octets.now 0 == 34) }
{
    octets.first().is_some_and(|octet| *octet == b'"')
}

/// Adds the octets of the characters up to the quote; where memory is refused, some of them.
fn push_characters(octets: &[u8], out: &mut Vec<u8>) -> Result<(), AllocError>
    requires { ∥ ClosedCharacters octets.now ∥₁ }
    ensures ok { IfOk result (λ _. (text : ClosedCharacters octets.now)
        → out.new.items ≡ out.old.items ++ text.octets) }
    ensures kept { take (length out.old.items) out.new.items ≡ out.old.items }
{
    let mut rest = octets;
    while !begins_with_quote(rest) {
        let (value, len) = match character(rest, b'"', NOWHERE) {
            Ok(read) => read,
            Err(_) => unreachable!(),
        };
        out.push(value)?;
        rest = rest.split_at(len).1;
    }
    Ok(())
}

/// Adds the octets for which a text literal stands, of its text with the quotes.
///
/// # Errors
///
/// `AllocError` where memory was refused; then nothing was added.
pub fn push_octets(text: &str, octets: &mut Vec<u8>) -> Result<(), AllocError>
    requires { HasForm Kind.TextLit text.now }
    ensures ok { IfOk result (λ _. (literal : IsTextLiteral text.now (length text.now))
        → octets.new.items ≡ octets.old.items ++ literal.octets) }
    ensures err { OnErr result (octets.new.items ≡ octets.old.items) }
{
    let len = octets.len();
    match push_characters(behind_first(text.as_bytes()), octets) {
        Ok(()) => Ok(()),
        Err(fault) => {
            octets.truncate(len);
            Err(fault)
        }
    }
}
