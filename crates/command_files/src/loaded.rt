//! The tables that words name: the sample, table files, and IDL files, which are compiled in memory.

ghost use Rattle.std.specs.Prelude.{◌≡◌, ◌↔◌, ◌⊎◌, [], codes, take, IsTrue, IfOk, IfErr};
ghost use Rattle.idl_compiler.specs.Files.{IsNamedText, IsRefusedSource};
ghost use Rattle.position_checker.specs.Acceptance.{IsRight};
ghost use Rattle.table_file.specs.TableSpelling.{Spells, SpellsOld};
ghost use Rattle.command_tables.specs.Files.{RefusesFile};
ghost use Rattle.command_tables.specs.Sample.{sample_table};
ghost use Rattle.command_files.specs.Loaded.{IsHeldBy, IsLoaded, IsNotHeld, IsNotLoaded, IsTableFile};

use command_tables::{Refusal, SAMPLE, WholeFiles, accepted, read_file, sample};
use command_texts::Loaded;
use idl_compiler::{CompileFault, compile_source};
use std::alloc::Global;

/// Why a word names no table.
#[derive(Drop)]
pub enum NamedFault<'a> {
    /// A file or a table; want of memory.
    Refused(Refusal<'a>),
    /// The IDL file, which was read as these octets, has no table.
    NotCompiled {
        fault: CompileFault,
        source: Vec<u8>,
    },
}

/// Whether octets are a table file's, and not an IDL file's, of which none begins so.
fn is_table(octets: &[u8]) -> bool
    ensures { IsTrue result ↔ IsTableFile octets.now }
{
    octets.len() >= 4 && &octets[..4] == b"IDLT".as_slice()
}

fn of_table<'a>(alloc: Global, octets: &[u8]) -> Result<Loaded, NamedFault<'a>>
    requires { IsTableFile octets.now }
    ensures held { IfOk result (λ loaded. IsHeldBy octets.now loaded.table loaded.names) }
    ensures right { IfOk result (λ loaded. IsRight loaded.table) }
    ensures refused { IfErr result (IsNotHeld octets.now) }
{
    match accepted(alloc, octets) {
        Ok(table) => Ok(Loaded::nameless(alloc, table)),
        Err(refusal) => Err(NamedFault::Refused(refusal)),
    }
}

fn of_source<'a>(alloc: Global, octets: Vec<u8>) -> Result<Loaded, NamedFault<'a>>
    requires { ¬ IsTableFile octets.items }
    ensures held { IfOk result (λ loaded. IsHeldBy octets.items loaded.table loaded.names) }
    ensures right { IfOk result (λ loaded. IsRight loaded.table) }
    ensures refused { IfErr result (IsNotHeld octets.items) }
{
    match compile_source(alloc, octets.as_slice()) {
        Ok(whole) => Ok(Loaded {
            table: whole.settled.table,
            names: whole.names,
        }),
        Err(fault) => Err(NamedFault::NotCompiled {
            fault,
            source: octets,
        }),
    }
}

/// The table that octets are, or that of the IDL that they are.
fn held<'a>(alloc: Global, octets: Vec<u8>) -> Result<Loaded, NamedFault<'a>>
    ensures held { IfOk result (λ loaded. IsHeldBy octets.items loaded.table loaded.names) }
    ensures right { IfOk result (λ loaded. IsRight loaded.table) }
    ensures refused { IfErr result (IsNotHeld octets.items) }
{
    if is_table(octets.as_slice()) {
        of_table(alloc, octets.as_slice())
    } else {
        of_source(alloc, octets)
    }
}

/// The table of a name: the sample, or that of a file, which was found right. A file that isn't a
/// table file is read as IDL.
///
/// # Errors
/// Those of `read_file`, `accepted` and `compile_source`; of the sample want of memory alone.
pub fn load<'a, R: WholeFiles + AllocGlobal>(
    rt: &R,
    name: &'a str,
) -> Result<Loaded, NamedFault<'a>>
    ensures is { IfOk result (λ loaded. IsLoaded (R.reads rt.now) name.now loaded.table loaded.names) }
    ensures refused { IfErr result (IsNotLoaded (R.reads rt.now) name.now) }
{
    if name == SAMPLE {
        return match sample(rt.alloc()) {
            Ok(table) => Ok(Loaded::nameless(rt.alloc(), table)),
            Err(_) => Err(NamedFault::Refused(Refusal::NoMemory)),
        };
    }
    match read_file(rt, name) {
        Ok(octets) => held(rt.alloc(), octets),
        Err(refusal) => Err(NamedFault::Refused(refusal)),
    }
}
