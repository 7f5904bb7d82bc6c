//! A file is read past once before anything of it is kept. So one that breaks somewhere, or passes
//! a limit, is refused with nothing stored.

ghost use Rattle.std.specs.Prelude.{◌≡◌, List, Some, IfErr};
ghost use Rattle.std.specs.Bool.{OnFalse};
ghost use Rattle.marshal_program.specs.declared.instr.Routine.{Routine};
ghost use Rattle.marshal_program.specs.ProgramRules.{IsProgram};
ghost use Rattle.type_graph.specs.GraphRules.{IsGraph};
ghost use Rattle.table_file.specs.Octets.{spelled_pair};
ghost use Rattle.table_file.specs.Spelling.{spelled_program};
ghost use Rattle.table_file.specs.Table.{IsTable, TableParts};
ghost use Rattle.table_file.specs.Refusal.{wants_memory};
ghost use Rattle.table_file.specs.inner.PartCodes.{ModelFields, spelled_model_fields};
ghost use Rattle.table_file.specs.inner.TableCodes.{spelled_body, spelled_fields, spelled_most, spelled_old_fields};
ghost use Rattle.table_file.specs.inner.Decoding.{IsOldBody};
ghost use Rattle.table_file.specs.inner.Skimming.{AreNamed, AreProgramSizes, BeginsWithNoGraph, IsModelSize, IsMostSize, IsOldSize, IsProgramSize, IsTableSize, Skims, spelled_named};

use crate::cursor::Cursor;
use crate::draft::graph_of;
use crate::lists::{Size, skim_list, skim_run};
use crate::part::Part;
use crate::table::Which;
use crate::uses::MAX_NODES;
use crate::whole::{both, finished};
use marshal_program::{Routine, TableFault};
use std::alloc::Global;
use type_graph::{Items, Node};
use type_model::{Exception, Interface, Name, Operation};

/// How many members all nodes together may have.
const MAX_MEMBERS: usize = 32768;

const MAX_ROUTINES: usize = 8192;

const MAX_INSTRS: usize = 65536;

/// So many octets may have many names.
const LARGE: usize = 1_048_576;

/// The nodes, the names, and what else a model declares.
type ModelSize = (Size, (Size, usize));

/// A model and both programs.
type MostSize = (ModelSize, (Size, Size));

fn skim_named(cursor: &mut Cursor<'_>) -> Result<(Size, usize), TableFault>
    ensures { Skims spelled_named AreNamed result cursor.old cursor.new }
{
    let names = skim_list::<(Name, u32)>(cursor)?;
    let declared = <(Items<Interface>, (Items<Operation>, Items<Exception>))>::skim(cursor);
    both(names, declared)
}

fn skim_model(cursor: &mut Cursor<'_>) -> Result<ModelSize, TableFault>
    ensures { Skims spelled_model_fields IsModelSize result cursor.old cursor.new }
{
    let nodes = skim_list::<Node>(cursor)?;
    let named = skim_named(cursor);
    both(nodes, named)
}

fn skim_programs(cursor: &mut Cursor<'_>) -> Result<(Size, Size), TableFault>
    ensures { Skims (spelled_pair spelled_program spelled_program) AreProgramSizes result cursor.old cursor.new }
{
    let first = skim_list::<Routine>(cursor)?;
    let second = skim_list::<Routine>(cursor);
    both(first, second)
}

fn skim_most(cursor: &mut Cursor<'_>) -> Result<MostSize, TableFault>
    ensures { Skims spelled_most IsMostSize result cursor.old cursor.new }
{
    let model = skim_model(cursor)?;
    let programs = skim_programs(cursor);
    both(model, programs)
}

fn skim_fields(cursor: &mut Cursor<'_>) -> Result<(MostSize, usize), TableFault>
    ensures { Skims spelled_fields IsTableSize result cursor.old cursor.new }
{
    let most = skim_most(cursor)?;
    let uses = skim_run::<Which>(cursor, most.0.1.0.count);
    both(most, uses)
}

fn skim_old_fields(cursor: &mut Cursor<'_>) -> Result<(ModelSize, Size), TableFault>
    ensures { Skims spelled_old_fields IsOldSize result cursor.old cursor.new }
{
    let model = skim_model(cursor)?;
    let first = skim_list::<Routine>(cursor);
    both(model, first)
}

/// Refuses more nodes or members than a graph may have.
fn check_nodes(model: ModelSize) -> Result<(), TableFault>
    ensures { IfErr result (λ fault. OnFalse (wants_memory fault)
        ((x : ModelFields) → IsModelSize model x → IsGraph x.0 → ⊥)) }
{
    if model.0.count > MAX_NODES || model.0.weight > MAX_MEMBERS {
        return Err(TableFault::BadNumber);
    }
    Ok(())
}

/// Refuses more routines or instructions than a program may have.
fn check_program(program: Size) -> Result<(), TableFault>
    ensures { IfErr result (λ fault. OnFalse (wants_memory fault)
        ((x : List Routine) → IsProgramSize program x → IsProgram x → ⊥)) }
{
    if program.count > MAX_ROUTINES || program.weight > MAX_INSTRS {
        return Err(TableFault::BadNumber);
    }
    Ok(())
}

/// Judges the nodes at the front of many octets, before names are kept behind them.
fn check_front(alloc: Global, octets: &[u8]) -> Result<(), TableFault>
    ensures { IfErr result (λ fault. OnFalse (wants_memory fault) (BeginsWithNoGraph octets.now)) }
{
    if octets.len() < LARGE {
        return Ok(());
    }
    let mut cursor = Cursor::new(alloc, octets);
    let nodes = Items::<Node>::read(&mut cursor)?;
    graph_of(alloc, nodes)?;
    Ok(())
}

/// Reads past what stands behind the start of a file of version 2. What this takes may be refused
/// for what it says.
///
/// # Errors
/// What is told while the octets are read, then `Trailing`, then `BadNumber`; or want of memory.
pub(crate) fn skim_whole(alloc: Global, octets: &[u8]) -> Result<(), TableFault>
    ensures { IfErr result (λ fault. OnFalse (wants_memory fault) ((table : TableParts) → IsTable table
        → spelled_body table ≡ Some octets.now → ⊥)) }
{
    let mut cursor = Cursor::new(alloc, octets);
    let told = skim_fields(&mut cursor);
    let ((model, (first, second)), _) = finished(told, &cursor)?;
    check_nodes(model)?;
    check_program(first)?;
    check_program(second)?;
    check_front(alloc, octets)
}

/// The same of version 1.
pub(crate) fn skim_old(alloc: Global, octets: &[u8]) -> Result<(), TableFault>
    ensures { IfErr result (λ fault. OnFalse (wants_memory fault) ((table : TableParts) → IsTable table
        → IsOldBody table octets.now → ⊥)) }
{
    let mut cursor = Cursor::new(alloc, octets);
    let told = skim_old_fields(&mut cursor);
    let (model, first) = finished(told, &cursor)?;
    check_nodes(model)?;
    check_program(first)?;
    check_front(alloc, octets)
}
