//! Nodes and routines of a table, as a person is told of them.

ghost use Rattle.std.specs.Prelude.{◌≡◌, Contains, IfSome, Some, slice_get};
ghost use Rattle.table_file.specs.Table.{program_at};
ghost use Rattle.table_file.specs.declared.table.Which.{Which};

use crate::shown_source::all_shown;
use position_checker::RoutinePlace;
use std::alloc::{AllocError, Global};
use table_file::{Table, Which};

/// The first name of a node.
fn name_of(table: &Table, node: u32) -> Option<&str>
    ensures { IfSome result (λ name. Contains table.now.model.names (name.now, node)) }
{
    let names = table.model().names();
    for place in 0..names.len() {
        let (name, named) = names.pair(place);
        if named == node {
            return Some(name);
        }
    }
    None
}

fn shown(alloc: Global, text: &str) -> Result<String, AllocError> {
    let mut shown = String::new(alloc);
    for character in all_shown(alloc, text.as_bytes())?.as_slice() {
        shown.push(char::from(*character))?;
    }
    Ok(shown)
}

/// A node's number, and its name where it has one.
pub(crate) fn node_words(alloc: Global, table: &Table, node: u32) -> Result<String, AllocError> {
    match name_of(table, node) {
        Some(name) => format!(in alloc; "node {node}, '{}'", shown(alloc, name)?),
        None => format!(in alloc; "node {node}, which has no name"),
    }
}

/// The node of the routine at a place.
pub(crate) fn node_at(table: &Table, place: RoutinePlace) -> Option<u32> {
    let which = match place.program {
        0 => Which::First,
        _ => Which::Second,
    };
    let routine = table.program(which).routines().get(place.routine as usize)?;
    Some(routine.node)
}
