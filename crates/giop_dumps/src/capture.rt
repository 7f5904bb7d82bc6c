//! Captures told, whatever their form.

ghost use Rattle.std.specs.Prelude.{◌≡◌, true, false, IfOk, IfErr, IfSome, OnOk};
ghost use Rattle.std.specs.String.{string_bytes};
ghost use Rattle.std.specs.Io.KnownBytes.{Appends, Keeps};
ghost use Rattle.giop_dumps.specs.Outputs.{HasLines, IsBehindLines};
ghost use Rattle.giop_dumps.specs.declared.fault.DumpFault.TheVariants.{Unwritten};

use crate::captures::Side;
use crate::dump::Dump;
use crate::fault::{CutShort, DumpFault};
use crate::patience::Patience;
use crate::words::Words;
use std::alloc::{AllocError, Global};
use std::io::Write;

/// A capture of which some was told.
pub(crate) trait Capture {
    /// Tells the next of what was read; none where more has to be read.
    ///
    /// # Errors
    /// Want of memory.
    fn tell<W: Words>(&mut self, words: &mut W, alloc: Global) -> Result<Option<String>, AllocError>
        ensures { IfOk result (λ o. IfSome o (λ text. HasLines (string_bytes text))) };

    /// Reads on, and tells whether there may be more to tell. At the end of what is there it is waited as long
    /// as the patience lasts.
    ///
    /// # Errors
    /// What was read is no capture, or it can't be read on. Want of memory.
    fn go_on<W: Words, P: Patience>(
        &mut self,
        words: &mut W,
        alloc: Global,
        patience: &mut P,
    ) -> Result<bool, DumpFault>;
}

/// Tells what stands at the front of a direction.
pub(crate) fn front_lines<W: Words>(
    words: &mut W,
    alloc: Global,
    dump: &mut Dump,
    side: Side,
) -> Result<Option<String>, AllocError>
    ensures { IfOk result (λ o. IfSome o (λ text. HasLines (string_bytes text))) }
{
    dump.tell(words, alloc, side)
}

/// Tells what is left of a direction.
fn left_lines(alloc: Global, dump: &mut Dump, side: Side) -> Result<Option<String>, AllocError>
    ensures { IfOk result (λ o. IfSome o (λ text. HasLines (string_bytes text))) }
{
    dump.tell_end(alloc, side)
}

/// Tells what is left of a direction, of the first one first, once a capture has ended.
pub(crate) fn last_lines(
    alloc: Global,
    dump: &mut Dump,
    has_ended: bool,
) -> Result<Option<String>, AllocError>
    ensures { IfOk result (λ o. IfSome o (λ text. HasLines (string_bytes text))) }
{
    if !has_ended {
        return Ok(None);
    }
    match left_lines(alloc, dump, Side::First)? {
        Some(text) => Ok(Some(text)),
        None => left_lines(alloc, dump, Side::Second),
    }
}

/// Puts lines on the output.
fn put<O: Write>(out: &mut O, text: &str) -> Result<(), DumpFault>
    ensures put { OnOk result (Appends (O.contents out.old) (O.contents out.new) text.now) }
    ensures fault { IfErr result (λ fault. fault ≡ Unwritten) }
{
    match out.write_all(text.as_bytes()) {
        Ok(()) => Ok(()),
        Err(_) => Err(DumpFault::Unwritten),
    }
}

fn flushed<O: Write>(out: &mut O) -> Result<(), DumpFault>
    ensures kept { Keeps (O.contents out.old) (O.contents out.new) }
{
    match out.flush() {
        Ok(()) => Ok(()),
        Err(_) => Err(DumpFault::Unwritten),
    }
}

/// Tells a capture, each message as soon as its octets were read. What was told stands on the output before
/// it is read on.
pub(crate) fn tell_capture<W: Words, C: Capture + Drop, P: Patience, O: Write>(
    words: &mut W,
    alloc: Global,
    capture: C,
    patience: &mut P,
    out: &mut O,
) -> Result<(), CutShort>
    ensures untold { IfErr result (λ cut. cut.told ≡ false → out.new ≡ out.old) }
    ensures told { IfErr result (λ cut. cut.told ≡ true →
        IsBehindLines cut.fault (O.contents out.old) (O.contents out.new)) }
{
    let mut capture = capture;
    let mut told = false;
    for _ in 0..u64::MAX {
        match capture.tell(words, alloc) {
            Ok(Some(text)) => {
                told = true;
                match put(out, text.as_str()) {
                    Ok(()) => continue,
                    Err(fault) => return Err(CutShort { fault, told }),
                }
            }
            Ok(None) => {}
            Err(error) => {
                let fault = DumpFault::from(error);
                return Err(CutShort { fault, told });
            }
        }
        if told && let Err(fault) = flushed(out) {
            return Err(CutShort { fault, told });
        }
        match capture.go_on(words, alloc, patience) {
            Ok(true) => {}
            Ok(false) => break,
            Err(fault) => return Err(CutShort { fault, told }),
        }
    }
    Ok(())
}
