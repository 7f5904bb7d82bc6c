//! The octets of a table's file.

ghost use Rattle.std.specs.Prelude.{◌≤◌, length, IfErr, IfOk};
ghost use Rattle.table_file.specs.TableSpelling.{Spells};
ghost use Rattle.position_checker.specs.Acceptance.{IsRight};
ghost use Rattle.position_checker.specs.File.{HasNoFile};

use crate::accepted::Accepted;
use marshal_program::TableFault;
use std::alloc::Global;
use table_file::encode_table;

/// So many octets a table file has at most.
pub const MAX_LEN: u32 = 16_777_216;

/// Why a table has no file.
#[derive(Debug, Drop)]
pub enum FileFault {
    /// No octets spell it.
    Unspelled(TableFault),
    /// It has more octets than a file may have.
    TooLong,
    NoMemory,
}

/// The octets of a table's file, in the newest version.
///
/// # Errors
/// `Unspelled` where it can't be spelled, `TooLong` where it has more octets than a file may have.
pub fn file_octets(alloc: Global, table: &Accepted) -> Result<Vec<u8>, FileFault>
    ensures spelled { IfOk result (λ octets. Spells table.now octets.items) }
    ensures right { IsRight table.now }
    ensures within { IfOk result (λ octets. length octets.items ≤ 16777216) }
    ensures refused { IfErr result (HasNoFile table.now) }
{
    match encode_table(alloc, table.table()) {
        Ok(octets) if octets.len() > MAX_LEN as usize => Err(FileFault::TooLong),
        Ok(octets) => Ok(octets),
        Err(TableFault::NoMemory) => Err(FileFault::NoMemory),
        Err(fault) => Err(FileFault::Unspelled(fault)),
    }
}
