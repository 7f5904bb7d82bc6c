//! Octets as they are shown.

ghost use Rattle.std.specs.Prelude.{◌≡◌, ◌<◌, ◌++◌, IfOk, OnOk};
ghost use Rattle.diagnostic_views.specs.Shown.{all_shown, digit, is_plain, shown};

use std::alloc::{AllocError, Global};

fn is_plain(octet: u8) -> bool
    ensures { result ≡ is_plain octet }
{
    32 <= octet && octet <= 126
}

/// The digit of a number below 16.
fn digit(number: u8) -> u8
    requires { number < 16 }
    ensures { result ≡ digit number }
{
    if number < 10 {
        48 + number
    } else {
        55 + number
    }
}

fn push_shown(text: &mut Vec<u8>, octet: u8) -> Result<(), AllocError>
    ensures { OnOk result (text.new.items ≡ text.old.items ++ shown octet) }
{
    if is_plain(octet) {
        text.push(octet)?;
        Ok(())
    } else if octet == b'\t' {
        text.extend_from_slice(b"    ")
    } else {
        text.extend_from_slice(&[b'\\', b'x', digit(octet / 16), digit(octet % 16)])
    }
}

/// The octets as they are shown: a graphic character of ASCII or a blank as it is, a tab as four
/// blanks, any other octet as `\x` and two digits.
pub fn all_shown(alloc: Global, octets: &[u8]) -> Result<Vec<u8>, AllocError>
    ensures { IfOk result (λ text. text.items ≡ all_shown octets.now) }
{
    let mut text = Vec::new(alloc);
    for octet in octets {
        push_shown(&mut text, *octet)?;
    }
    Ok(text)
}
