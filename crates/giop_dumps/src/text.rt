//! Captures as text told.

ghost use Rattle.std.specs.Prelude.{◌≡◌, ◌≤◌, true, false, length, IfErr};
ghost use Rattle.giop_dumps.specs.Outputs.{IsBehindLines};

use crate::capture::{Capture, front_lines, last_lines, tell_capture};
use crate::captures::{Backlog, CaptureFault, Side, Stage, follow_line};
use crate::dump::Dump;
use crate::fault::{CutShort, DumpFault};
use crate::patience::Patience;
use crate::source::Source;
use crate::words::Words;
use memchr::memchr;
use std::alloc::{AllocError, Global};
use std::io::{Read, Write};

/// A line has at most so many octets: the digits of a segment of TCP and a tab, with room.
const LONGEST_LINE: usize = 262_144;

/// A text, as far as it was read.
#[derive(Drop)]
struct Text<R> {
    dump: Dump,
    source: Source<R>,
    /// What was read and isn't a line yet.
    lines: Backlog,
    stage: Stage,
    /// How many lines were read.
    number: u64,
    /// The direction to which octets came last.
    side: Side,
    has_ended: bool,
}

impl<R: Read + Drop> Text<R> {
    /// The fault that the line which was read last is none.
    fn bad_line(&self) -> DumpFault {
        DumpFault::BadCapture { line: self.number }
    }

    /// Takes a line of so many octets away, and what it says.
    fn take_line(&mut self, alloc: Global, len: usize) -> Result<(), DumpFault> {
        self.number = self.number.saturating_add(1);
        let octets = self.lines.octets.as_slice();
        let len = len.min(octets.len());
        let (line, behind) = octets.split_at(len);
        let passed = if behind.is_empty() { len } else { len + 1 };
        let said = match follow_line(alloc, self.stage, line) {
            Ok(said) => said,
            Err(CaptureFault::BadCapture) => return Err(self.bad_line()),
            Err(CaptureFault::NoMemory) => return Err(DumpFault::NoMemory),
        };
        self.stage = said.stage;
        self.lines.pass(passed);
        if let Some(piece) = said.piece {
            self.side = piece.side;
            self.dump.add(piece.side, piece.octets.as_slice())?;
        }
        Ok(())
    }

    /// Reads on, and tells whether more came. A line that is too long is none.
    fn read_on(&mut self) -> Result<bool, DumpFault> {
        if self.lines.octets.len() > LONGEST_LINE {
            self.number = self.number.saturating_add(1);
            return Err(self.bad_line());
        }
        self.source.look()?;
        if self.source.octets().is_empty() {
            return Ok(false);
        }
        self.lines.add(self.source.octets())?;
        self.source.pass();
        Ok(true)
    }

    /// Takes away what is left when no more comes, and tells whether there may be more to tell.
    fn end(&mut self, alloc: Global) -> Result<bool, DumpFault> {
        let left = self.lines.octets.len();
        if left > 0 {
            self.take_line(alloc, left)?;
            return Ok(true);
        }
        if self.stage != Stage::Behind {
            return Err(self.bad_line());
        }
        let had_ended = self.has_ended;
        self.has_ended = true;
        Ok(!had_ended)
    }
}

impl<R: Read + Drop> Capture for Text<R> {
    fn tell<W: Words>(
        &mut self,
        words: &mut W,
        alloc: Global,
    ) -> Result<Option<String>, AllocError> {
        if let Some(text) = front_lines(words, alloc, &mut self.dump, self.side)? {
            return Ok(Some(text));
        }
        last_lines(alloc, &mut self.dump, self.has_ended)
    }

    fn go_on<W: Words, P: Patience>(
        &mut self,
        _words: &mut W,
        alloc: Global,
        patience: &mut P,
    ) -> Result<bool, DumpFault> {
        if let Some(len) = memchr(b'\n', self.lines.octets.as_slice()) {
            self.take_line(alloc, len)?;
            return Ok(true);
        }
        if self.read_on()? || patience.waits() {
            return Ok(true);
        }
        self.end(alloc)
    }
}

/// Tells the messages of both directions, as they went, by what tshark prints of them. At the end of what
/// is there it is waited as long as the patience lasts.
///
/// # Errors
/// `BadCapture` at the first line that is none of such a text. The source can't be read, or the output
/// written. Want of memory. What was told up to there is on the output.
pub fn dump_text<W: Words, R: Read + Drop, P: Patience, O: Write>(
    words: &mut W,
    alloc: Global,
    source: Source<R>,
    patience: &mut P,
    out: &mut O,
) -> Result<(), CutShort>
    ensures untold { IfErr result (λ cut. cut.told ≡ false → out.new ≡ out.old) }
    ensures told { IfErr result (λ cut. cut.told ≡ true →
        IsBehindLines cut.fault (O.contents out.old) (O.contents out.new)) }
{
    let capture = Text {
        dump: Dump::new(alloc),
        source,
        lines: Backlog::new(alloc),
        stage: Stage::Before,
        number: 0,
        side: Side::First,
        has_ended: false,
    };
    tell_capture(words, alloc, capture, patience, out)
}
