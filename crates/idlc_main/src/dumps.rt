//! What captures say.

ghost use Rattle.std.specs.Prelude.{◌≡◌, ◌⊎◌, IfErr};
ghost use Rattle.idlc_main.specs.Dumps.{IsDumpEnd};
ghost use Rattle.idlc_main.specs.Fault.{status_of};

use crate::fault::Fault;
use command_files::load;
use command_tables::WholeFiles;
use command_words::DumpTask;
use giop_words::dump_commands::{CaptureFiles, CaptureNames, dump_capture};
use std::io::Write;
use std::time::Clock;

/// Tells a capture by the table of a name, each message as soon as it was read. The table's fault is told
/// before one of the capture. A capture that is refused has status 1 where nothing of it was told, and 3
/// behind messages.
pub fn dumped<'a, R: WholeFiles + CaptureFiles + Clock + AllocGlobal, O: Write>(
    rt: &R,
    task: &DumpTask<'a>,
    out: &mut O,
) -> Result<(), Fault<'a>>
    ensures status { IfErr result (λ fault. (status_of fault ≡ 3) ⊎ (out.new ≡ out.old)) }
    ensures output { IfErr result (λ fault. IsDumpEnd O.contents fault out.old out.new) }
{
    let loaded = match load(rt, task.table) {
        Ok(loaded) => loaded,
        Err(fault) => return Err(Fault::from(fault)),
    };
    let names = CaptureNames {
        file: task.file,
        back: task.back,
        follows: task.follow,
    };
    match dump_capture(rt, &loaded.table, &loaded.names, &names, out) {
        Ok(()) => Ok(()),
        Err(fault) => Err(Fault::NotDumped(fault)),
    }
}
