//! What the commands do with the table of a name: the sample, or that of a file.

ghost use Rattle.std.specs.Prelude.{◌≡◌, ◌≤◌, ◌⊎◌, length, IfOk, IfErr, OnOk};
ghost use Rattle.std.specs.String.{string_bytes};
ghost use Rattle.command_tables.specs.Files.{RefusesTable};
ghost use Rattle.position_checker.specs.Summary.{accepted as accepted_routines};
ghost use Rattle.command_tables.specs.Named.{IsNoTable, IsNoUpgrade, IsTableOf, IsUnread, IsUnwritten, IsUpgraded, IsWritten};

use crate::builtin::sample;
use crate::refusal::Refusal;
use crate::source::{accepted, upgraded};
use crate::whole_files::WholeFiles;
use crate::whole_read::ReadFault;
use crate::whole_write::WriteFault;
use position_checker::{Accepted, MAX_LEN, accepted_line};

/// The name by which the commands know the sample table.
pub const SAMPLE: &str = "builtin";

/// The octets of a file.
///
/// # Errors
/// `Unread` where it can't be opened or read, `TooLong` where it has more than 16,777,216 octets.
pub fn read_file<'a, R: WholeFiles>(rt: &R, file: &'a str) -> Result<Vec<u8>, Refusal<'a>>
    ensures read { IfOk result (λ octets. R.reads rt.now file.now octets.items) }
    ensures within { IfOk result (λ octets. length octets.items ≤ 16777216) }
    ensures refused { IfErr result (IsUnread (R.reads rt.now) file.now) }
{
    match rt.octets_in(file, MAX_LEN) {
        Ok(octets) => Ok(octets),
        Err(ReadFault::Unread) => Err(Refusal::Unread { file }),
        Err(ReadFault::TooLong) => Err(Refusal::TooLong),
        Err(ReadFault::NoMemory) => Err(Refusal::NoMemory),
    }
}

/// Writes octets to a file.
///
/// # Errors
/// `Unwritten` where it can't be made or written.
pub fn write_file<'a, R: WholeFiles>(
    rt: &R,
    file: &'a str,
    octets: &[u8],
) -> Result<(), Refusal<'a>>
    ensures taken { OnOk result (R.takes rt.now file.now octets.now) }
    ensures refused { IfErr result (IsUnwritten file.now) }
{
    match rt.put_octets(file, octets) {
        Ok(()) => Ok(()),
        Err(WriteFault::Unwritten) => Err(Refusal::Unwritten { file }),
        Err(WriteFault::NoMemory) => Err(Refusal::NoMemory),
    }
}

/// The table of a name: the sample, or that of a file, which was found right.
///
/// # Errors
/// Those of `read_file` and `accepted`; of the sample want of memory alone.
pub fn table_of<'a, R: WholeFiles + AllocGlobal>(
    rt: &R,
    name: &'a str,
) -> Result<Accepted, Refusal<'a>>
    ensures is { IfOk result (IsTableOf (R.reads rt.now) name.now) }
    ensures refused { IfErr result (IsNoTable (R.reads rt.now) name.now) }
{
    if name == SAMPLE {
        return match sample(rt.alloc()) {
            Ok(table) => Ok(table),
            Err(_) => Err(Refusal::NoMemory),
        };
    }
    let octets = match read_file(rt, name) {
        Ok(octets) => octets,
        Err(refusal) => return Err(refusal),
    };
    accepted(rt.alloc(), octets.as_slice())
}

/// What is done with the table stands apart from the function that owns it, of which the prover would list all parts at each
/// step.
fn write_upgraded<'a, R: WholeFiles + AllocGlobal>(
    rt: &R,
    table: &Accepted,
    output: &'a str,
) -> Result<String, Refusal<'a>>
    ensures written { OnOk result (IsWritten (R.takes rt.now) output.now table.now) }
    ensures line { IfOk result (λ line. string_bytes line ≡ accepted_routines table.now) }
    ensures refused { IfErr result (λ refusal. RefusesTable table.now refusal ⊎ IsUnwritten output.now refusal) }
{
    let octets = upgraded(rt.alloc(), table)?;
    let line = accepted_line(rt.alloc(), table)?;
    write_file(rt, output, octets.as_slice())?;
    Ok(line)
}

/// Writes the table of a name anew, in the newest version, to another file; then how many routines
/// it has, as a line.
///
/// # Errors
/// Those of `table_of`, `upgraded` and `write_file`.
pub fn upgrade<'a, R: WholeFiles + AllocGlobal>(
    rt: &R,
    name: &'a str,
    output: &'a str,
) -> Result<String, Refusal<'a>>
    ensures written { IfOk result (λ line.
        IsUpgraded (R.reads rt.now) (R.takes rt.now) name.now output.now (string_bytes line)) }
    ensures refused { IfErr result (IsNoUpgrade (R.reads rt.now) name.now output.now) }
{
    let table = match table_of(rt, name) {
        Ok(table) => table,
        Err(refusal) => return Err(refusal),
    };
    write_upgraded(rt, &table, output)
}
