//! The octets of a table.

ghost use Rattle.std.specs.Prelude.{◌≡◌, ◌<◌, ℕ, List, length, Some, IfOk, IfErr};
ghost use Rattle.std.specs.Bool.{OnFalse};
ghost use Rattle.std.specs.Fmt.{◌++?◌};
ghost use Rattle.table_file.specs.Octets.{spelled_each, spelled_list};
ghost use Rattle.table_file.specs.Spelling.{spelled_exception, spelled_interface, spelled_model, spelled_name, spelled_operation, spelled_program};
ghost use Rattle.table_file.specs.TableSpelling.{Spells, spelled_start, spelled_table, spelled_which};
ghost use Rattle.table_file.specs.inner.Reading.{Writes};
ghost use Rattle.table_file.specs.Refusal.{wants_memory};

use crate::lists::{write_count, write_each, write_list};
use crate::part::Part;
use crate::table::Table;
use crate::texts::write_text;
use marshal_program::TableFault;
use std::alloc::Global;
use type_model::{Model, NameTable};

/// Puts a name and its node behind what was written before.
fn write_name(name: &str, node: u32, out: &mut Vec<u8>) -> Result<(), TableFault>
    ensures { Writes (spelled_name (name.now, node)) result out.old.items out.new.items }
{
    write_text(name, out)?;
    node.write(out)
}

fn write_each_name(names: &NameTable, out: &mut Vec<u8>) -> Result<(), TableFault>
    ensures { Writes (spelled_each spelled_name names.now) result out.old.items out.new.items }
{
    'names: for place in 0..names.len() {
        let (name, node) = names.pair(place);
        write_name(name, node, out)?;
    }
    Ok(())
}

fn write_names(names: &NameTable, out: &mut Vec<u8>) -> Result<(), TableFault>
    ensures { Writes (spelled_list spelled_name names.now) result out.old.items out.new.items }
{
    write_count(names.len(), out)?;
    write_each_name(names, out)
}

/// Puts what a model declares beside types behind what was written before.
fn write_declared(model: &Model, out: &mut Vec<u8>) -> Result<(), TableFault>
    ensures { Writes (spelled_list spelled_interface model.now.interfaces
        ++? spelled_list spelled_operation model.now.operations
        ++? spelled_list spelled_exception model.now.exceptions) result out.old.items out.new.items }
{
    write_list(model.interfaces(), out)?;
    write_list(model.operations(), out)?;
    write_list(model.exceptions(), out)
}

fn write_model(model: &Model, out: &mut Vec<u8>) -> Result<(), TableFault>
    ensures { Writes (spelled_model model.now) result out.old.items out.new.items }
{
    write_list(model.graph().nodes(), out)?;
    write_names(model.names(), out)?;
    write_declared(model, out)
}

/// Puts the programs of a table and its uses behind what was written before.
fn write_programs(table: &Table, out: &mut Vec<u8>) -> Result<(), TableFault>
    ensures { Writes (spelled_program table.now.first ++? spelled_program table.now.second
        ++? spelled_each spelled_which table.now.uses) result out.old.items out.new.items }
{
    write_list(table.first().routines(), out)?;
    write_list(table.second().routines(), out)?;
    write_each(table.uses(), out)
}

fn write_start(out: &mut Vec<u8>) -> Result<(), TableFault>
    ensures { Writes (spelled_start 2) result out.old.items out.new.items }
{
    out.extend_from_slice(&[b'I', b'D', b'L', b'T', 2])?;
    Ok(())
}

fn write_table(table: &Table, out: &mut Vec<u8>) -> Result<(), TableFault>
    ensures { Writes (spelled_table table.now) result out.old.items out.new.items }
{
    write_start(out)?;
    write_model(table.model(), out)?;
    write_programs(table, out)
}

/// The octets of a table, of version 2.
///
/// # Errors
/// `BadNumber` only where it has none: a text that isn't ASCII, or 2 ^ 32 or more of something; or
/// want of memory.
pub fn encode_table(alloc: Global, table: &Table) -> Result<Vec<u8>, TableFault>
    ensures spelled { IfOk result (λ octets. Spells table.now octets.items) }
    ensures refused { IfErr result (λ fault. OnFalse (wants_memory fault)
        ((octets : List ℕ) → Spells table.now octets → ⊥)) }
{
    let mut out = Vec::new(alloc);
    match write_table(table, &mut out) {
        Ok(()) => Ok(out),
        Err(fault) => Err(fault),
    }
}
