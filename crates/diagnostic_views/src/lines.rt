//! The lines that tell of faults.

use crate::facts::{AllKnown, Known, Note, known_of};
use crate::shown_source::{all_shown, show_line};
use crate::source_places::place_at;
use idl_compiler::CompileFault;
use std::alloc::{AllocError, Global};

/// The codes by which a terminal writes in another way from there on (ECMA-48, SGR).
const BOLD: &str = "\x1b[1m";

const RED: &str = "\x1b[1;31m";

const PLAIN: &str = "\x1b[0m";

/// How lines look.
#[derive(Clone, Copy, Debug, PartialEq, Eq)]
pub enum Look {
    Plain,
    /// With the codes by which terminals show places bold and carets red.
    Coloured,
}

/// Adds a code for terminals.
fn push_code(lines: &mut String, look: Look, code: &str) -> Result<(), AllocError> {
    match look {
        Look::Plain => Ok(()),
        Look::Coloured => lines.push_str(code),
    }
}

/// Adds octets as they are shown.
fn push_shown(lines: &mut String, alloc: Global, octets: &[u8]) -> Result<(), AllocError> {
    push_plain(lines, all_shown(alloc, octets)?.as_slice())
}

/// Adds characters of ASCII.
fn push_plain(lines: &mut String, characters: &[u8]) -> Result<(), AllocError> {
    for character in characters {
        lines.push(char::from(*character))?;
    }
    Ok(())
}

/// Adds the place of an octet: file and line as they were written.
fn push_place(
    lines: &mut String,
    alloc: Global,
    file: &str,
    source: &[u8],
    octet: usize,
) -> Result<(), AllocError> {
    let place = place_at(source, octet.min(source.len()));
    push_shown(lines, alloc, place.file.unwrap_or(file.as_bytes()))?;
    lines.push_str(format!(in alloc; ":{}", place.line)?.as_str())
}

/// Adds a line with blanks before it.
fn push_line(lines: &mut String, text: &[u8]) -> Result<(), AllocError> {
    lines.push_str("\n    ")?;
    push_plain(lines, text)
}

/// Adds a caret in a line of its own.
fn push_caret(lines: &mut String, look: Look, caret: usize) -> Result<(), AllocError> {
    lines.push_str("\n    ")?;
    for _ in 0..caret {
        lines.push(' ')?;
    }
    push_code(lines, look, RED)?;
    lines.push('^')?;
    push_code(lines, look, PLAIN)
}

/// Adds another place, and what stands there.
fn push_note(
    lines: &mut String,
    alloc: Global,
    file: &str,
    source: &[u8],
    note: Option<Note>,
) -> Result<(), AllocError> {
    let Some(note) = note else {
        return Ok(());
    };
    lines.push('\n')?;
    push_place(lines, alloc, file, source, note.octet)?;
    lines.push_str(": ")?;
    lines.push_str(note.what)
}

/// Adds the place of a fault with its sentence, the line, and the caret.
fn push_fault(
    lines: &mut String,
    alloc: Global,
    look: Look,
    file: &str,
    source: &[u8],
    known: &Known,
) -> Result<(), AllocError> {
    let octet = known.octet;
    let window = show_line(alloc, source, octet.min(source.len()))?;
    push_code(lines, look, BOLD)?;
    push_place(lines, alloc, file, source, octet)?;
    let column = octet.saturating_sub(window.start).saturating_add(1);
    lines.push_str(format!(in alloc; ":{column}")?.as_str())?;
    push_code(lines, look, PLAIN)?;
    lines.push_str(": ")?;
    lines.push_str(known.sentence.as_str())?;
    push_line(lines, window.text.as_slice())?;
    push_caret(lines, look, window.caret)
}

/// Adds what says more, where none of those before says it too.
fn push_more(
    lines: &mut String,
    alloc: Global,
    before: &[Known],
    known: &Known,
) -> Result<(), AllocError> {
    let number = known.number;
    if before.iter().any(|one| one.number == number) {
        return Ok(());
    }
    lines.push_str(format!(in alloc; "\nidlc explain {number} says more")?.as_str())
}

/// Adds the lines of a fault, behind those of the ones before it.
fn push_known(
    lines: &mut String,
    alloc: Global,
    look: Look,
    file: &str,
    source: &[u8],
    before: &[Known],
    known: &Known,
) -> Result<(), AllocError> {
    if !before.is_empty() {
        lines.push('\n')?;
    }
    push_fault(lines, alloc, look, file, source, known)?;
    push_note(lines, alloc, file, source, known.first)?;
    push_note(lines, alloc, file, source, known.second)?;
    push_more(lines, alloc, before, known)
}

/// Adds how many faults there are beside those that are told.
fn push_count(lines: &mut String, alloc: Global, all: &AllKnown) -> Result<(), AllocError> {
    let told = all.known.len() as u64;
    match all.count.saturating_sub(told) {
        0 if all.is_all => Ok(()),
        0 => lines.push_str("\nand maybe more faults"),
        _ if !all.is_all => lines.push_str("\nand more faults"),
        1 => lines.push_str("\nand one fault more"),
        more => lines.push_str(format!(in alloc; "\nand {more} faults more")?.as_str()),
    }
}

/// The lines of what is known, the last without its end.
fn lines_of(
    alloc: Global,
    look: Look,
    file: &str,
    source: &[u8],
    all: &AllKnown,
) -> Result<String, AllocError> {
    let mut lines = String::new(alloc);
    let known = all.known.as_slice();
    for at in 0..known.len() {
        let (before, _) = known.split_at(at);
        push_known(&mut lines, alloc, look, file, source, before, &known[at])?;
    }
    push_count(&mut lines, alloc, all)?;
    Ok(lines)
}

/// What a person is told of the faults of an IDL file, of which the first is at hand, in lines of which
/// the last has no end: of all faults of its names, 20 at most and how many more there are; or of its
/// types, 20 at most and whether there are more; or else of its first fault. Each is
/// `FILE:LINE:COLUMN: ` and a sentence, with file and line as the line markers have them; the line of
/// the source with a caret; the places of other declarations; and what says more. None where nothing
/// is known of the fault.
pub fn view(
    alloc: Global,
    look: Look,
    file: &str,
    source: &[u8],
    fault: &CompileFault,
) -> Result<Option<String>, AllocError> {
    let all = known_of(alloc, source, fault)?;
    if all.known.is_empty() {
        return Ok(None);
    }
    Ok(Some(lines_of(alloc, look, file, source, &all)?))
}
