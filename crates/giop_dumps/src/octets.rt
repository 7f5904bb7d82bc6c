//! Captures of octets told: of one direction, or of both in two files.

ghost use Rattle.std.specs.Prelude.{◌≡◌, true, false, IfErr, IfOk, IfSome};
ghost use Rattle.std.specs.String.{string_bytes};
ghost use Rattle.giop_dumps.specs.Outputs.{HasLines, IsBehindLines};

use crate::capture::{Capture, front_lines, last_lines, tell_capture};
use crate::captures::Side;
use crate::dump::Dump;
use crate::fault::{CutShort, DumpFault};
use crate::patience::Patience;
use crate::source::Source;
use crate::words::Words;
use std::alloc::{AllocError, Global};
use std::io::{Read, Write};

/// The octets of one direction, or of both.
#[derive(Drop)]
struct Octets<R> {
    dump: Dump,
    first: Source<R>,
    second: Option<Source<R>>,
    /// A direction whose reply is told though its request wasn't.
    forced: Option<Side>,
    has_ended: bool,
}

/// Gives a direction the next octets of its source, and tells whether there were any.
fn filled<R: Read + Drop>(
    dump: &mut Dump,
    side: Side,
    source: &mut Source<R>,
) -> Result<bool, DumpFault> {
    source.look()?;
    if source.octets().is_empty() {
        return Ok(false);
    }
    dump.add(side, source.octets())?;
    source.pass();
    Ok(true)
}

impl<R: Read + Drop> Octets<R> {
    /// Gives a direction its next octets, and tells whether there were any.
    fn fill(&mut self, side: Side) -> Result<bool, DumpFault> {
        match side {
            Side::First => filled(&mut self.dump, side, &mut self.first),
            Side::Second => match &mut self.second {
                Some(source) => filled(&mut self.dump, side, source),
                None => Ok(false),
            },
        }
    }

    /// The direction that is told first where each front is a reply whose request wasn't told, and the one
    /// that is read on for it.
    fn early<W: Words>(&self, words: &W) -> Option<(Side, Side)> {
        if self.dump.is_early(words, Side::Second) {
            return Some((Side::Second, Side::First));
        }
        if self.dump.is_early(words, Side::First) {
            return Some((Side::First, Side::Second));
        }
        None
    }

    /// Reads on, and tells whether there was anything left.
    fn read_on<W: Words>(&mut self, words: &W) -> Result<bool, DumpFault> {
        match self.early(words) {
            Some((reply, request)) => {
                if self.dump.is_early(words, request) || !self.fill(request)? {
                    self.forced = Some(reply);
                }
                Ok(true)
            }
            None => Ok(self.fill(Side::Second)? || self.fill(Side::First)?),
        }
    }

    /// Tells what stands at the front of a direction, but for a reply to a request that wasn't told yet.
    fn lines_in_order<W: Words>(
        &mut self,
        words: &mut W,
        alloc: Global,
        side: Side,
    ) -> Result<Option<String>, AllocError>
        ensures { IfOk result (λ o. IfSome o (λ text. HasLines (string_bytes text))) }
    {
        if self.dump.is_early(words, side) {
            return Ok(None);
        }
        front_lines(words, alloc, &mut self.dump, side)
    }
}

impl<R: Read + Drop> Capture for Octets<R> {
    fn tell<W: Words>(
        &mut self,
        words: &mut W,
        alloc: Global,
    ) -> Result<Option<String>, AllocError> {
        if let Some(side) = self.forced {
            self.forced = None;
            return front_lines(words, alloc, &mut self.dump, side);
        }
        if let Some(text) = self.lines_in_order(words, alloc, Side::Second)? {
            return Ok(Some(text));
        }
        if let Some(text) = self.lines_in_order(words, alloc, Side::First)? {
            return Ok(Some(text));
        }
        last_lines(alloc, &mut self.dump, self.has_ended)
    }

    fn go_on<W: Words, P: Patience>(
        &mut self,
        words: &mut W,
        _alloc: Global,
        patience: &mut P,
    ) -> Result<bool, DumpFault> {
        if self.has_ended {
            return Ok(false);
        }
        if !self.read_on(words)? && !patience.waits() {
            self.has_ended = true;
        }
        Ok(true)
    }
}

/// Tells the messages of one direction, or of both, each reply behind its request, as soon as their octets
/// were read. At the end of what is there it is waited as long as the patience lasts.
///
/// # Errors
/// A source can't be read, or the output written. Want of memory. What was told up to there is on the
/// output.
pub fn dump_octets<W: Words, R: Read + Drop, P: Patience, O: Write>(
    words: &mut W,
    alloc: Global,
    first: Source<R>,
    second: Option<Source<R>>,
    patience: &mut P,
    out: &mut O,
) -> Result<(), CutShort>
    ensures untold { IfErr result (λ cut. cut.told ≡ false → out.new ≡ out.old) }
    ensures told { IfErr result (λ cut. cut.told ≡ true →
        IsBehindLines cut.fault (O.contents out.old) (O.contents out.new)) }
{
    let capture = Octets {
        dump: Dump::new(alloc),
        first,
        second,
        forced: None,
        has_ended: false,
    };
    tell_capture(words, alloc, capture, patience, out)
}
