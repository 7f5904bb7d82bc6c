//! Integer literals (ISO/IEC 19500-1, lexical conventions, literals).

ghost use Rattle.std.specs.Prelude.{◌≡◌, ◌<◌, ◌≤◌, ◌≢◌, ℕ, length, slice_index, IfErr, IfOk, IfSome, IsSome};
ghost use Rattle.std.specs.Str.Parse.{digits_value};
ghost use Rattle.idl_lexer.specs.Octets.{run};
ghost use Rattle.idl_lexer.specs.Numbers.{is_word_or_point, number_value, IsInteger, IsLiteral, IsNumber};
ghost use Rattle.idl_lexer.specs.declared.fault.LexFault.TheVariants.{BadNumber};

use crate::fault::{LexFault, Start};
use crate::octets::is_word_octet;

/// The number that the digits write in this radix, where it has at most 64 bits.
pub(crate) fn number_of(digits: &[u8], radix: u32) -> Option<u64>
    requires low { 2 ≤ radix }
    requires high { radix ≤ 36 }
    ensures number { IfSome result (λ v. IsNumber radix digits.now) }
    ensures value { IfSome result (λ v. v ≡ digits_value radix digits.now) }
    ensures complete { IsNumber radix digits.now → IsSome result }
{
    if digits.first() == Some(&b'+') {
        return None;
    }
    match str::from_utf8(digits) {
        Ok(text) => u64::from_str_radix(text, radix).ok(),
        Err(_) => None,
    }
}

fn number_len(octets: &[u8]) -> usize
    ensures value { result ≡ run is_word_or_point octets.now }
    ensures within { result ≤ length octets.now }
{
    octets
        .iter()
        .position(|octet| !is_word_octet(*octet) && *octet != b'.')
        .unwrap_or(octets.len())
}

/// The value of an integer literal, where it is one.
pub(crate) fn literal_value(octets: &[u8]) -> Option<u64>
    ensures form { IfSome result (λ v. IsLiteral octets.now) }
    ensures value { IfSome result (λ v. v ≡ number_value octets.now) }
    ensures complete { IsLiteral octets.now → IsSome result }
{
    match octets {
        [b'0', b'x' | b'X', digits @ ..] => number_of(digits, 16),
        [b'0', ..] => number_of(octets, 8),
        [b'1'..=b'9', ..] => number_of(octets, 10),
        _ => None,
    }
}

/// How long the integer literal at the front is: everything up to the first octet that is no letter,
/// digit, underscore or point has to be of it.
///
/// # Errors
///
/// `BadNumber` where that is no integer literal.
pub(crate) fn integer(octets: &[u8], start: Start) -> Result<usize, LexFault>
    ensures form { IfOk result (λ n. IsInteger octets.now n) }
    ensures within { IfOk result (λ n. n ≤ length octets.now) }
    ensures long { IfOk result (λ n. 0 < n) }
    ensures refused { IfErr result (λ _. (n : ℕ) → IsInteger octets.now n → ⊥) }
    ensures told { IfErr result (λ fault. fault ≡ BadNumber start.line start.octet) }
{
    let Start { line, octet } = start;
    let len = number_len(octets);
    match literal_value(octets.split_at(len).0) {
        Some(_) => Ok(len),
        None => Err(LexFault::BadNumber { line, octet }),
    }
}
