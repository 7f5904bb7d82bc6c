//! Keys of objects.

ghost use Rattle.std.specs.Prelude.{◌≡◌, ◌<◌, ◌∷◌, nat_lt, length, if◌then◌else◌, None, Some, IfOk, IfErr, IfSome, IfNone, option_map};
ghost use Rattle.std.specs.Bool.{OnFalse};
ghost use Rattle.std.specs.Char.{digit_value};
ghost use Rattle.reference_texts.specs.Places.{escaped, key_of as key_in};
ghost use Rattle.reference_texts.specs.CorbalocRefusal.{wants_memory};

use crate::corbaloc::fault::CorbalocFault;
use std::alloc::Global;

/// The value of a hexadecimal digit.
fn digit_of(digit: u8) -> Option<u8>
    ensures value { result ≡ (if nat_lt (digit_value digit) 16 then Some (digit_value digit) else None) }
    ensures small { IfSome result (λ value. value < 16) }
{
    match digit {
        b'0'..=b'9' => Some(digit - b'0'),
        b'A'..=b'F' => Some(digit - b'A' + 10),
        b'a'..=b'f' => Some(digit - b'a' + 10),
        _ => None,
    }
}

/// The octet whose digits stand first, and the rest.
fn escaped_of(text: &[u8]) -> Option<(u8, &[u8])>
    ensures found { IfSome result (λ r. escaped text.now ≡ option_map (λ key. r.0 ∷ key) (key_in r.1.now)) }
    ensures shorter { IfSome result (λ r. length r.1.now < length text.now) }
    ensures refused { IfNone result (escaped text.now ≡ None) }
{
    match text {
        [high, low, rest @ ..] => match (digit_of(*high), digit_of(*low)) {
            (Some(high), Some(low)) => Some((16 * high + low, rest)),
            _ => None,
        },
        _ => None,
    }
}

/// The octet that is spelled first, and the rest.
fn first_of(text: &[u8]) -> Option<(u8, &[u8])>
    requires { 0 < length text.now }
    ensures found { IfSome result (λ r. key_in text.now ≡ option_map (λ key. r.0 ∷ key) (key_in r.1.now)) }
    ensures shorter { IfSome result (λ r. length r.1.now < length text.now) }
    ensures refused { IfNone result (key_in text.now ≡ None) }
{
    match text {
        [octet, rest @ ..] if *octet != b'%' => Some((*octet, rest)),
        [_, rest @ ..] => escaped_of(rest),
        [] => None,
    }
}

/// The key that a text spells.
///
/// # Errors
/// `BadCorbaloc` where no two digits stand behind a `%`. Want of memory.
pub(crate) fn key_of(alloc: Global, text: &[u8]) -> Result<Vec<u8>, CorbalocFault>
    ensures found { IfOk result (λ key. key_in text.now ≡ Some key.items) }
    ensures refused { IfErr result (λ fault. OnFalse (wants_memory fault) (key_in text.now ≡ None)) }
{
    let mut key = Vec::new(alloc);
    let mut left = text;
    while !left.is_empty() {
        let Some((octet, rest)) = first_of(left) else {
            return Err(CorbalocFault::BadCorbaloc);
        };
        match key.push(octet) {
            Ok(()) => left = rest,
            Err(_) => return Err(CorbalocFault::NoMemory),
        }
    }
    Ok(key)
}
