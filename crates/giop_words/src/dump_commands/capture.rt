//! Captures that were opened.

ghost use Rattle.std.specs.Prelude.{IfErr};
ghost use Rattle.giop_words.specs.Faults.{IsUntold};

use crate::dump_commands::fault::CaptureFault;
use crate::dump_commands::files::CaptureFiles;
use giop_dumps::captures::{CaptureForm, form_of};
use giop_dumps::{Source, SourceFault};
use std::io::Read;

/// The name of standard input.
const INPUT: &str = "/dev/stdin";

/// The words for a capture's files.
#[derive(Clone, Copy, Debug, PartialEq, Eq)]
pub struct CaptureNames<'a> {
    /// Without a word, and as `-`, standard input.
    pub file: Option<&'a str>,
    /// The octets of the other direction, where each has a file.
    pub back: Option<&'a str>,
    /// Files may go on behind their ends; standard input doesn't.
    pub follows: bool,
}

/// A capture of which nothing was told yet.
#[derive(Drop)]
pub struct Capture<T> {
    pub form: CaptureForm,
    pub first: Source<T>,
    pub second: Option<Source<T>>,
    /// Whether it may go on behind its end.
    pub follows: bool,
}

fn file_in<'a>(word: Option<&'a str>) -> &'a str {
    match word {
        None | Some("-") => INPUT,
        Some(file) => file,
    }
}

/// What a file is read from, and its form.
fn source_of<'a, R: CaptureFiles + AllocGlobal>(
    rt: &R,
    file: &'a str,
) -> Result<(Source<R::Reader>, CaptureForm), CaptureFault<'a>>
    ensures { IfErr result IsUntold }
{
    let Ok(reader) = rt.reader_of(file) else {
        return Err(CaptureFault::Unread { file });
    };
    let source = match Source::open(rt.alloc(), reader) {
        Ok(source) => source,
        Err(SourceFault::Unread) => return Err(CaptureFault::Unread { file }),
        Err(SourceFault::NoMemory) => return Err(CaptureFault::NoMemory),
    };
    match form_of(source.octets()) {
        Some(form) => Ok((source, form)),
        None => Err(CaptureFault::NotCapture { file }),
    }
}

fn grown<T: Read + Drop>(source: Source<T>, grows: bool) -> Source<T> {
    if grows { source.growing() } else { source }
}

/// A file that has the octets of a direction.
fn direction_of<'a, R: CaptureFiles + AllocGlobal>(
    rt: &R,
    file: &'a str,
    follows: bool,
) -> Result<Source<R::Reader>, CaptureFault<'a>>
    ensures { IfErr result IsUntold }
{
    match source_of(rt, file) {
        Ok((source, CaptureForm::Octets)) => Ok(grown(source, follows)),
        Ok((_, CaptureForm::Text)) => Err(CaptureFault::NotCapture { file }),
        Err(fault) => Err(fault),
    }
}

/// The octets of both directions, in a file each.
fn capture_in_two<'a, R: CaptureFiles + AllocGlobal>(
    rt: &R,
    file: &'a str,
    back: &'a str,
    follows: bool,
) -> Result<Capture<R::Reader>, CaptureFault<'a>>
    ensures { IfErr result IsUntold }
{
    let first = match direction_of(rt, file, follows) {
        Ok(first) => first,
        Err(fault) => return Err(fault),
    };
    match direction_of(rt, back, follows) {
        Ok(second) => Ok(Capture {
            form: CaptureForm::Octets,
            first,
            second: Some(second),
            follows,
        }),
        Err(fault) => Err(fault),
    }
}

fn capture_in_one<'a, R: CaptureFiles + AllocGlobal>(
    rt: &R,
    file: &'a str,
    follows: bool,
) -> Result<Capture<R::Reader>, CaptureFault<'a>>
    ensures { IfErr result IsUntold }
{
    match source_of(rt, file) {
        Ok((first, form)) => Ok(Capture {
            form,
            first: grown(first, follows),
            second: None,
            follows,
        }),
        Err(fault) => Err(fault),
    }
}

/// A capture, of one file or of two, whose first octets were read.
pub fn open_capture<'a, R: CaptureFiles + AllocGlobal>(
    rt: &R,
    names: &CaptureNames<'a>,
) -> Result<Capture<R::Reader>, CaptureFault<'a>>
    ensures { IfErr result IsUntold }
{
    let file = file_in(names.file);
    let follows = names.follows && file != INPUT;
    match names.back {
        Some(back) => capture_in_two(rt, file, file_in(Some(back)), follows),
        None => capture_in_one(rt, file, follows),
    }
}
