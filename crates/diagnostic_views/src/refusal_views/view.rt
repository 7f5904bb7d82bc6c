//! The lines that tell of a refusal.

ghost use Rattle.std.specs.Prelude.{◌≡◌, ◌++◌, IfOk, IfSome, is_some};
ghost use Rattle.std.specs.String.{string_bytes};
ghost use Rattle.diagnostic_texts.specs.Headings.{is_refusal};
ghost use Rattle.diagnostic_views.specs.Views.{IsHinted, hint};

use diagnostic_texts::explanation;
use std::alloc::{AllocError, Global};

/// The number with which the line of a refusal begins.
pub fn number_in(line: &str) -> Option<u8> {
    let (digits, _name) = line.split_once(' ')?;
    match digits.parse::<u8>() {
        Ok(number) => Some(number),
        Err(_) => None,
    }
}

/// The first sentence behind the first line of an explanation.
fn sentence_of(alloc: Global, text: &str) -> Result<String, AllocError> {
    let mut sentence = String::new(alloc);
    let Some((_heading, rest)) = text.split_once('\n') else {
        return Ok(sentence);
    };
    for c in rest.chars() {
        if c.is_ascii_whitespace() && sentence.as_str().ends_with('.') {
            break;
        }
        sentence.push(if c == '\n' { ' ' } else { c })?;
    }
    Ok(sentence)
}

/// The sentence of an explanation, and what is known, in a line of its own.
fn front_of(alloc: Global, text: &str, known: Option<&str>) -> Result<String, AllocError> {
    let mut front = sentence_of(alloc, text)?;
    if let Some(known) = known {
        front.push('\n')?;
        front.push_str(known)?;
    }
    Ok(front)
}

/// Lines, and behind them what says more.
fn hinted(alloc: Global, number: u8, front: &str) -> Result<String, AllocError>
    ensures { IfOk result (λ lines. string_bytes lines ≡ front.now ++ hint number) }
{
    format!(in alloc; "{front}\nidlc explain {number} says more")
}

/// What a person is told of the refusal of a number, in lines of which the last has no end: a
/// sentence, what else is known, and what says more. None where no refusal has the number.
pub fn refusal_view(
    alloc: Global,
    number: u8,
    known: Option<&str>,
) -> Result<Option<String>, AllocError>
    ensures there { IfOk result (λ view. is_some view ≡ is_refusal number) }
    ensures hinted { IfOk result (λ view. IfSome view (λ lines. IsHinted number (string_bytes lines))) }
{
    let Some(text) = explanation(number) else {
        return Ok(None);
    };
    let front = front_of(alloc, text, known)?;
    let lines = hinted(alloc, number, front.as_str())?;
    Ok(Some(lines))
}
