//! Tables as text.

use crate::escaped::Escaped;
use crate::shown_program::ShownProgram;
use position_checker::Accepted;
use std::alloc::{AllocError, Global};
use std::fmt;
use table_file::Which;

/// An accepted table as the listing shows it: a line for each name, with its node and the routine
/// that serves it; then the two programs, each with its routines.
#[derive(Clone, Copy)]
struct ShownTable<'t>(&'t Accepted);

/// The line of a name.
#[derive(Clone, Copy)]
struct ShownName<'t> {
    table: &'t Accepted,
    name: &'t str,
    node: u32,
}

impl fmt::Display for ShownName<'_> {
    fn fmt<W: fmt::Write>(&self, f: &mut fmt::Formatter<W>) -> fmt::Result {
        write!(f, "name {} node {}", Escaped(self.name), self.node)?;
        if let Some(program) = self.table.program_of(self.name) {
            write!(f, " program {}", program.number())?;
        }
        if let Some(routine) = self.table.routine_of(self.name) {
            write!(f, " routine {routine}")?;
        }
        writeln!(f)
    }
}

impl fmt::Display for ShownTable<'_> {
    fn fmt<W: fmt::Write>(&self, f: &mut fmt::Formatter<W>) -> fmt::Result {
        let table = self.0;
        let names = table.table().model().names();
        for place in 0..names.len() {
            let (name, node) = names.pair(place);
            write!(f, "{}", ShownName { table, name, node })?;
        }
        for program in [Which::First, Which::Second] {
            writeln!(f, "program {}", program.number())?;
            write!(f, "{}", ShownProgram(table.table().program(program)))?;
        }
        Ok(())
    }
}

/// The listing of a table.
pub fn listing(alloc: Global, table: &Accepted) -> Result<String, AllocError> {
    format!(in alloc; "{}", ShownTable(table))
}
