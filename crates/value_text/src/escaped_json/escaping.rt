//! Control characters as escapes.

ghost use Rattle.std.specs.Prelude.{◌≡◌, ◌<◌, ◌++◌, ◌∷◌, [], IfOk, OnOk};
ghost use Rattle.std.specs.Char.{digit_char};
ghost use Rattle.std.specs.String.{string_bytes};
ghost use Rattle.value_text.specs.Escaped.{escape_of, escaped, written};

use memchr::memchr2;
use std::alloc::{AllocError, Global};

/// The text with its characters from U+007F to U+009F as escapes.
///
/// # Errors
/// Want of memory.
pub fn escape(alloc: Global, text: String) -> Result<String, AllocError>
    ensures { IfOk result (λ shown. string_bytes shown ≡ escaped (string_bytes text)) }
{
    // In UTF-8 these characters are the octet 7F, or begin with C2.
    match memchr2(0x7F, 0xC2, text.as_bytes()) {
        None => Ok(text),
        Some(_) => each_written(alloc, text.as_str()),
    }
}

fn each_written(alloc: Global, text: &str) -> Result<String, AllocError>
    ensures { IfOk result (λ shown. string_bytes shown ≡ escaped text.now) }
{
    let mut shown = String::with_capacity(alloc, text.len())?;
    for character in text.chars() {
        push_written(&mut shown, character)?;
    }
    Ok(shown)
}

fn push_written(shown: &mut String, character: char) -> Result<(), AllocError>
    ensures { OnOk result (string_bytes shown.new ≡ string_bytes shown.old ++ written character) }
{
    let code = u32::from(character);
    if 0x7F <= code && code <= 0x9F {
        push_escape(shown, code)
    } else {
        shown.push(character)
    }
}

fn push_escape(shown: &mut String, code: u32) -> Result<(), AllocError>
    requires { code < 256 }
    ensures { OnOk result (string_bytes shown.new ≡ string_bytes shown.old ++ escape_of code) }
{
    shown.push_str("\\u00")?;
    push_digit(shown, code / 16)?;
    push_digit(shown, code % 16)
}

fn push_digit(shown: &mut String, number: u32) -> Result<(), AllocError>
    requires { number < 16 }
    ensures { OnOk result (string_bytes shown.new ≡ string_bytes shown.old ++ digit_char number ∷ []) }
{
    shown.push(char::from_digit(number, 16).unwrap_or('0'))
}
