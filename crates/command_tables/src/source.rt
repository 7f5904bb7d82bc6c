//! Tables from octets, octets from tables.

ghost use Rattle.std.specs.Prelude.{◌≤◌, ◌⊎◌, length, IfOk, IfErr};
ghost use Rattle.table_file.specs.TableSpelling.{Spells, SpellsOld};
ghost use Rattle.position_checker.specs.Acceptance.{IsRight};
ghost use Rattle.command_tables.specs.Files.{RefusesFile, RefusesTable};
ghost use Rattle.command_tables.specs.Refusal.{IsOfTable};

use crate::refusal::Refusal;
use position_checker::{Accepted, check, file_octets};
use std::alloc::Global;
use table_file::decode_table;

/// The table of these octets, of version 1 or 2, which was found right.
///
/// # Errors
/// `NoTable` where they are none's, `NotRight` where its routines aren't; never where it has the
/// plain or the joined program of its model alone.
pub fn accepted<'a>(alloc: Global, octets: &[u8]) -> Result<Accepted, Refusal<'a>>
    ensures spelled { IfOk result (λ table. Spells table octets.now ⊎ SpellsOld table octets.now) }
    ensures right { IfOk result IsRight }
    ensures cause { IfErr result IsOfTable }
    ensures refused { IfErr result (RefusesFile octets.now) }
{
    let table = match decode_table(alloc, octets) {
        Ok(table) => table,
        Err(fault) => return Err(Refusal::from(fault)),
    };
    match check(alloc, table) {
        Ok(accepted) => Ok(accepted),
        Err(refused) => Err(Refusal::from(refused.fault)),
    }
}

/// The octets of a table, in the newest version.
///
/// # Errors
/// `NoTable` where it can't be spelled, `TooLong` where it has more octets than a file may have.
pub fn upgraded<'a>(alloc: Global, table: &Accepted) -> Result<Vec<u8>, Refusal<'a>>
    ensures spelled { IfOk result (λ octets. Spells table.now octets.items) }
    ensures right { IsRight table.now }
    ensures within { IfOk result (λ octets. length octets.items ≤ 16777216) }
    ensures refused { IfErr result (RefusesTable table.now) }
{
    match file_octets(alloc, table) {
        Ok(octets) => Ok(octets),
        Err(fault) => Err(Refusal::from(fault)),
    }
}
