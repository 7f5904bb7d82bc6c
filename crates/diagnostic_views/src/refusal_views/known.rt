//! What is known of a file that isn't a right table.

ghost use Rattle.std.specs.Prelude.{◌≡◌, IfNone, IfOk, IfSome};
ghost use Rattle.std.specs.String.{string_bytes};
ghost use Rattle.marshal_program.specs.declared.fault.TableFault.{TableFault};
ghost use Rattle.table_file.specs.Stops.{IsForm};
ghost use Rattle.command_tables.specs.declared.refusal.Refusal.TheVariants.{NoTable};
ghost use Rattle.diagnostic_views.specs.Views.{IsStopLine, stop_line as line_of_stop};

use crate::refusal_views::parts::{node_at, node_words};
use command_tables::Refusal;
use position_checker::CheckFault;
use std::alloc::{AllocError, Global};
use table_file::{Table, decode_table, stop_of};

fn stop_line(alloc: Global, at: usize) -> Result<String, AllocError>
    ensures { IfOk result (λ line. string_bytes line ≡ line_of_stop at) }
{
    format!(in alloc; "the file stops being a table at octet {at}, counted from 0")
}

/// Where octets stop being a table, as a line. None where they have the form of one.
fn of_form(alloc: Global, octets: &[u8]) -> Result<Option<String>, AllocError>
    ensures stops { IfOk result (λ known. IfSome known (λ line. IsStopLine octets.now (string_bytes line))) }
    ensures form { IfOk result (λ known. IfNone known (IsForm octets.now)) }
{
    let Some(at) = stop_of(octets) else {
        return Ok(None);
    };
    let line = stop_line(alloc, at)?;
    Ok(Some(line))
}

/// What the checker's fault is about.
fn of_parts(alloc: Global, table: &Table, fault: CheckFault) -> Result<Option<String>, AllocError> {
    match fault {
        CheckFault::WrongWork { at, .. }
        | CheckFault::WrongPadding { at, .. }
        | CheckFault::EntryOutside { at, .. }
        | CheckFault::ExitsTooSmall { at, .. } => match node_at(table, at) {
            Some(node) => {
                let node = node_words(alloc, table, node)?;
                Ok(Some(format!(in alloc; "the routine is that of {node}")?))
            }
            None => Ok(None),
        },
        CheckFault::NoRoutine { node } | CheckFault::NamedEntryNotFull { node } => {
            let node = node_words(alloc, table, node)?;
            Ok(Some(format!(in alloc; "the type is {node}")?))
        }
        CheckFault::NoMemory => Ok(None),
    }
}

fn of_check(alloc: Global, octets: &[u8], fault: CheckFault) -> Result<Option<String>, AllocError> {
    match decode_table(alloc, octets) {
        Ok(table) => of_parts(alloc, &table, fault),
        Err(_) => Ok(None),
    }
}

/// What is known of a file that was refused as a table, as a line without its end: the octet at which
/// it stops being one, counted from 0; of a routine that isn't right the node, and the name of that.
pub fn table_known(
    alloc: Global,
    octets: &[u8],
    refusal: &Refusal<'_>,
) -> Result<Option<String>, AllocError> {
    match refusal {
        Refusal::NoTable(_) => of_form(alloc, octets),
        Refusal::NotRight(fault) => of_check(alloc, octets, *fault),
        _ => Ok(None),
    }
}
