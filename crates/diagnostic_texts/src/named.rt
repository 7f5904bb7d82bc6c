//! Refusals by their numbers or names.

ghost use Rattle.std.specs.Prelude.{◌≡◌, ◌+◌, ◌++◌, IfOk, MatchOption, OnOk, Some, false, option_map};
ghost use Rattle.std.specs.String.{string_bytes};
ghost use Rattle.diagnostic_texts.specs.Headings.{first_line, heading};
ghost use Rattle.diagnostic_texts.specs.Named.{AreTexts, IsMeant, is_of, line_of, lines_below, means};

use crate::explanation;
use std::alloc::{AllocError, Global};

/// The numbers of refusals are below.
const NUMBERS: u16 = 256;

fn first_line(text: &'static str) -> &'static str
    ensures { result.now ≡ first_line text.now }
{
    match text.split_once('\n') {
        Some((first, _rest)) => first,
        None => text,
    }
}

/// The number and the name of the refusal.
pub fn heading(number: u8) -> Option<&'static str>
    ensures { option_map (λ line. line.now) result ≡ heading number }
{
    match explanation(number) {
        Some(text) => Some(first_line(text)),
        None => None,
    }
}

/// Whether the word is the digits or the name of a heading.
fn is_of(word: &str, heading: &str) -> bool
    ensures { result ≡ is_of word.now (Some heading.now) }
{
    match heading.split_once(' ') {
        Some((digits, name)) => word == digits || word.eq_ignore_ascii_case(name),
        None => word == heading || word.is_empty(),
    }
}

/// The text of the refusal, if the word means it.
fn meant(word: &str, number: u8) -> Option<&'static str>
    ensures { MatchOption result (means word.now number ≡ false) (λ text. IsMeant word.now number text.now) }
{
    match explanation(number) {
        Some(text) if is_of(word, first_line(text)) => Some(text),
        _ => None,
    }
}

/// Adds the text of a refusal that the word means.
fn push_meant(texts: &mut String, word: &str, number: u8) -> Result<(), AllocError>
    ensures { OnOk result (AreTexts word.now number (string_bytes texts.old)
        → AreTexts word.now (number + 1) (string_bytes texts.new)) }
{
    if let Some(text) = meant(word, number) {
        texts.push_str(text)?;
    }
    Ok(())
}

/// The texts of the refusals that a word means, by their number or their name in whatever case, one
/// behind another; several refusals have one name. Nothing where no refusal is meant.
pub fn explanations(alloc: Global, word: &str) -> Result<String, AllocError>
    ensures { IfOk result (λ texts. AreTexts word.now 256 (string_bytes texts)) }
{
    let mut texts = String::new(alloc);
    for number in 0..NUMBERS {
        push_meant(&mut texts, word, number as u8)?;
    }
    Ok(texts)
}

fn push_line(lines: &mut String, number: u8) -> Result<(), AllocError>
    ensures { OnOk result (string_bytes lines.new ≡ string_bytes lines.old ++ line_of (heading number)) }
{
    if let Some(heading) = heading(number) {
        lines.push_str(heading)?;
        lines.push_str("\n")?;
    }
    Ok(())
}

/// The numbers and names of all refusals, a line for each.
pub fn headings(alloc: Global) -> Result<String, AllocError>
    ensures { IfOk result (λ lines. string_bytes lines ≡ lines_below 256) }
{
    let mut lines = String::new(alloc);
    for number in 0..NUMBERS {
        push_line(&mut lines, number as u8)?;
    }
    Ok(lines)
}
