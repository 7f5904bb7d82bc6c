//! Captures told.

ghost use Rattle.std.specs.Prelude.{◌≡◌, true, false, IfErr};
ghost use Rattle.giop_dumps.specs.Outputs.{IsBehindLines};
ghost use Rattle.giop_words.specs.Faults.{IsOutput};

use crate::dump_commands::capture::{Capture, CaptureNames, open_capture};
use crate::dump_commands::fault::CaptureFault;
use crate::dump_commands::files::CaptureFiles;
use crate::{MessageTypes, TableWords};
use giop::Giop;
use giop_dumps::captures::CaptureForm;
use giop_dumps::{CutShort, Patience, dump_octets, dump_text};
use position_checker::Accepted;
use std::alloc::{AllocError, Global};
use std::io::{Read, Write};
use std::thread;
use std::time::{Clock, Duration};
use type_model::part_names::PartNames;

/// Looks again ten times a second, where a capture may go on.
#[derive(Drop)]
struct Looks<'r, R> {
    clock: &'r R,
    follows: bool,
}

impl<R: Clock> Patience for Looks<'_, R> {
    fn waits(&mut self) -> bool {
        if self.follows {
            thread::sleep(self.clock, Duration::from_millis(100));
        }
        self.follows
    }
}

/// What is told by beside a table.
#[derive(Drop)]
struct Own {
    giop: Giop,
    nameless: PartNames,
}

impl Own {
    fn new(alloc: Global) -> Result<Own, AllocError> {
        let giop = Giop::new(alloc)?;
        let nameless = PartNames::new(alloc, Vec::new(alloc));
        Ok(Own { giop, nameless })
    }

    /// With the types of a table.
    fn with<'a>(&'a self, table: &'a Accepted, names: &'a PartNames) -> MessageTypes<'a> {
        MessageTypes {
            giop: &self.giop,
            table,
            names,
            nameless: &self.nameless,
        }
    }
}

/// Tells a capture by types.
fn tell_all<R: Clock + AllocGlobal, T: Read + Drop, O: Write>(
    rt: &R,
    types: MessageTypes<'_>,
    capture: Capture<T>,
    out: &mut O,
) -> Result<(), CutShort>
    ensures untold { IfErr result (λ cut. cut.told ≡ false → out.new ≡ out.old) }
    ensures told { IfErr result (λ cut. cut.told ≡ true →
        IsBehindLines cut.fault (O.contents out.old) (O.contents out.new)) }
{
    let Capture {
        form,
        first,
        second,
        follows,
    } = capture;
    let mut looks = Looks { clock: rt, follows };
    let mut words = TableWords::new(rt.alloc(), types);
    match form {
        CaptureForm::Octets => dump_octets(&mut words, rt.alloc(), first, second, &mut looks, out),
        CaptureForm::Text => dump_text(&mut words, rt.alloc(), first, &mut looks, out),
    }
}

/// Tells the messages of a capture, each as soon as it was read, by the types of a table.
///
/// # Errors
/// A file can't be read, or is no capture; the text has a line that is none; want of memory: then nothing was
/// told. `CutShort` where it ends behind told messages, a file can't be read on, or the output written.
pub fn dump_capture<'a, R: CaptureFiles + Clock + AllocGlobal, O: Write>(
    rt: &R,
    table: &Accepted,
    names: &PartNames,
    files: &CaptureNames<'a>,
    out: &mut O,
) -> Result<(), CaptureFault<'a>>
    ensures output { IfErr result (λ fault. IsOutput O.contents fault out.old out.new) }
{
    let capture = match open_capture(rt, files) {
        Ok(capture) => capture,
        Err(fault) => return Err(fault),
    };
    let own = match Own::new(rt.alloc()) {
        Ok(own) => own,
        Err(_) => return Err(CaptureFault::NoMemory),
    };
    match tell_all(rt, own.with(table, names), capture, out) {
        Ok(()) => Ok(()),
        Err(cut) => Err(CaptureFault::of(cut)),
    }
}
