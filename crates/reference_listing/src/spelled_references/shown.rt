//! Octets as a person reads them.

ghost use Rattle.std.specs.Prelude.{◌≡◌, codes, IfOk, ◌∷◌, []};
ghost use Rattle.std.specs.String.{string_bytes};
ghost use Rattle.hex.specs.Hex.{encode_lower};
ghost use Rattle.reference_listing.specs.Shown.{digits, order_word, shown, shown_octet};

use std::alloc::{AllocError, Global};
use type_graph::Order;

/// Octets as digits, in lower case; a bar where there are none.
pub(crate) fn digits_text(alloc: Global, octets: &[u8]) -> Result<String, AllocError>
    ensures { IfOk result (λ text. string_bytes text ≡ digits octets.now) }
{
    if octets.is_empty() {
        String::from_str(alloc, "-")
    } else {
        hex::encode(alloc, octets)
    }
}

/// The two digits of an octet.
pub(crate) fn octet_digits(alloc: Global, octet: u8) -> Result<String, AllocError>
    ensures { IfOk result (λ text. string_bytes text ≡ encode_lower (octet ∷ [])) }
{
    let octets = [octet];
    hex::encode(alloc, octets.as_slice())
}

/// An octet as characters of ASCII: a control character, a backslash and one that isn't of ASCII by its
/// number, so that it forges no line and says nothing to a terminal.
fn octet_text(alloc: Global, octet: u8) -> Result<String, AllocError>
    ensures { IfOk result (λ text. string_bytes text ≡ shown_octet octet) }
{
    if octet == b'\\' {
        return String::from_str(alloc, "\\\\");
    }
    if 32 <= octet && octet <= 126 {
        let mut text = String::new(alloc);
        text.push(char::from(octet))?;
        return Ok(text);
    }
    let digits = octet_digits(alloc, octet)?;
    let mut text = String::from_str(alloc, "\\x")?;
    text.push_str(digits.as_str())?;
    Ok(text)
}

/// Octets as characters of ASCII.
pub(crate) fn shown_text(alloc: Global, octets: &[u8]) -> Result<String, AllocError>
    ensures { IfOk result (λ text. string_bytes text ≡ shown octets.now) }
{
    let mut text = String::new(alloc);
    for octet in octets {
        let one = octet_text(alloc, *octet)?;
        text.push_str(one.as_str())?;
    }
    Ok(text)
}

pub(crate) fn order_name(order: Order) -> &'static str
    ensures { result.now ≡ order_word order }
{
    match order {
        Order::Big => "big",
        Order::Little => "little",
    }
}
