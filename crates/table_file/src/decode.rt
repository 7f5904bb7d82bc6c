//! The table of a file's octets.

ghost use Rattle.std.specs.Prelude.{◌≡◌, ◌⊎◌, ℕ, List, ◌∷◌, Some, IfOk, IfErr, OnErr};
ghost use Rattle.std.specs.Bool.{OnFalse};
ghost use Rattle.table_file.specs.Table.{IsTable, TableParts};
ghost use Rattle.table_file.specs.TableSpelling.{Spells, SpellsOld};
ghost use Rattle.table_file.specs.inner.Reading.{Reads, Whole};
ghost use Rattle.table_file.specs.Refusal.{wants_memory};
ghost use Rattle.table_file.specs.inner.TableCodes.{spelled_body, spelled_fields, spelled_old_fields};
ghost use Rattle.table_file.specs.inner.Decoding.{IsOldBody};

use crate::cursor::Cursor;
use crate::draft::{OldDraft, ProgramsDraft, TableDraft, draft_of, finish};
use crate::lists::read_run;
use crate::part::Part;
use crate::skim::{skim_old, skim_whole};
use crate::table::Table;
use crate::whole::{both, finished};
use marshal_program::TableFault;
use std::alloc::Global;

fn read_parts(cursor: &mut Cursor<'_>) -> Result<TableDraft, TableFault>
    ensures { Reads spelled_fields result cursor.old cursor.new }
{
    let programs = ProgramsDraft::read(cursor)?;
    let count = programs.0.1.0.as_slice().len();
    both(programs, read_run(cursor, count))
}

fn read_whole(alloc: Global, octets: &[u8]) -> Result<TableDraft, TableFault>
    ensures { Whole spelled_fields result octets.now }
{
    let mut cursor = Cursor::new(alloc, octets);
    let read = read_parts(&mut cursor);
    finished(read, &cursor)
}

fn read_old(alloc: Global, octets: &[u8]) -> Result<OldDraft, TableFault>
    ensures { Whole spelled_old_fields result octets.now }
{
    let mut cursor = Cursor::new(alloc, octets);
    let read = OldDraft::read(&mut cursor);
    finished(read, &cursor)
}

/// The table of what stands behind the start of a file of version 2.
fn decode_body(alloc: Global, octets: &[u8]) -> Result<Table, TableFault>
    ensures spelled { IfOk result (λ table. spelled_body table ≡ Some octets.now) }
    ensures refused { IfErr result (λ fault. OnFalse (wants_memory fault) ((table : TableParts) → IsTable table
        → spelled_body table ≡ Some octets.now → ⊥)) }
{
    skim_whole(alloc, octets)?;
    let draft = read_whole(alloc, octets)?;
    finish(alloc, draft)
}

/// The same of version 1.
fn decode_old(alloc: Global, octets: &[u8]) -> Result<Table, TableFault>
    ensures spelled { IfOk result (λ table. IsOldBody table octets.now) }
    ensures refused { IfErr result (λ fault. OnFalse (wants_memory fault) ((table : TableParts) → IsTable table
        → IsOldBody table octets.now → ⊥)) }
{
    skim_old(alloc, octets)?;
    let old = read_old(alloc, octets)?;
    let draft = draft_of(alloc, old)?;
    finish(alloc, draft)
}

/// The version, and the octets behind it.
fn start_of(octets: &[u8]) -> Result<(u8, &[u8]), TableFault>
    ensures found { IfOk result (λ start. octets.now ≡ 73 ∷ 68 ∷ 76 ∷ 84 ∷ start.0 ∷ start.1.now) }
    ensures refused { OnErr result ((version : ℕ) (rest : List ℕ)
        → octets.now ≡ 73 ∷ 68 ∷ 76 ∷ 84 ∷ version ∷ rest → ⊥) }
{
    match octets {
        [b'I', b'D', b'L', b'T', version, rest @ ..] => Ok((*version, rest)),
        _ => Err(TableFault::NotATable),
    }
}

/// The table of a file's octets, of version 1 or 2.
///
/// # Errors
/// `NotATable` or `Version` while the octets are read; then `Trailing`, `BadNumber`,
/// `EmptyRoutine` and `RankRises`, in this order; or want of memory.
pub fn decode_table(alloc: Global, octets: &[u8]) -> Result<Table, TableFault>
    ensures spelled { IfOk result (λ table. Spells table octets.now ⊎ SpellsOld table octets.now) }
    ensures refused { IfErr result (λ fault. OnFalse (wants_memory fault) ((table : TableParts) → IsTable table
        → Spells table octets.now ⊎ SpellsOld table octets.now → ⊥)) }
{
    let (version, rest) = start_of(octets)?;
    match version {
        1 => decode_old(alloc, rest),
        2 => decode_body(alloc, rest),
        _ => Err(TableFault::Version),
    }
}
