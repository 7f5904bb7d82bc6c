//! Texts that words stand for.

ghost use Rattle.std.specs.Prelude.{◌≡◌, option_map, IfErr, IfOk};
ghost use Rattle.std.specs.Cow.{cow_str_bytes};
ghost use Rattle.std.specs.String.{string_bytes};
ghost use Rattle.command_tables.specs.Texts.{HasNoInput, IsInput, IsInputFault, IsNoTextIn, IsSource, IsTextFor};

use crate::named::read_file;
use crate::refusal::Refusal;
use crate::whole_files::WholeFiles;
use command_words::requests::{Form, Way};
use std::borrow::CowStr;
use value_text::{Refusal as TextFault, TextPlace, Wanted};

/// Where the word for a text has it from, if not from itself: standard input for `-`, the file behind
/// `@`.
fn source_in(word: &str) -> Option<&str>
    ensures { IsSource word.now (option_map (λ file. file.now) result) }
{
    if word == "-" {
        return Some("/dev/stdin");
    }
    word.strip_prefix("@")
}

/// The text of a file. JSON is UTF-8 (RFC 8259, 8.1).
fn text_in<'a, R: WholeFiles>(rt: &R, file: &'a str) -> Result<String, Refusal<'a>>
    ensures read { IfOk result (λ text. R.reads rt.now file.now (string_bytes text)) }
    ensures refused { IfErr result (IsNoTextIn (R.reads rt.now) file.now) }
{
    match String::from_utf8(read_file(rt, file)?) {
        Ok(text) => Ok(text),
        Err(_) => Err(Refusal::Unsaid(TextFault {
            wanted: Wanted::Json,
            place: TextPlace { line: 0, column: 0 },
        })),
    }
}

/// The text that a word stands for: itself, or that of a file.
///
/// # Errors
/// The file can't be read; `Unsaid` where it isn't UTF-8; want of memory.
pub fn text_of<'a, R: WholeFiles>(rt: &R, word: &'a str) -> Result<CowStr<'a>, Refusal<'a>>
    ensures stands { IfOk result (λ text. IsTextFor (R.reads rt.now) word.now (cow_str_bytes text)) }
    ensures refused { IfErr result (HasNoInput (R.reads rt.now) word.now) }
{
    match source_in(word) {
        Some(file) => Ok(CowStr::Owned(text_in(rt, file)?)),
        None => Ok(CowStr::Borrowed(word)),
    }
}

/// What the word for a value stands for: a text where the value is to be encoded from text, else itself.
///
/// # Errors
/// Those of `text_of`.
pub fn input_of<'a, R: WholeFiles>(
    rt: &R,
    form: Form,
    way: Way,
    word: &'a str,
) -> Result<CowStr<'a>, Refusal<'a>>
    ensures stands { IfOk result (λ text. IsInput (R.reads rt.now) form way word.now (cow_str_bytes text)) }
    ensures refused { IfErr result (IsInputFault (R.reads rt.now) form way word.now) }
{
    match (form, way) {
        (Form::Text, Way::Encode) => text_of(rt, word),
        _ => Ok(CowStr::Borrowed(word)),
    }
}
