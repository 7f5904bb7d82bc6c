//! Programs as text: for each routine a line, and for each instruction one below it.

use crate::shown_instr::ShownInstr;
use marshal_program::{Program, Routine};
use std::fmt;

/// The routines of a program as the listing shows them, each line with its end.
#[derive(Clone, Copy)]
pub(crate) struct ShownProgram<'p>(pub(crate) &'p Program);

/// A routine with its number in the program.
#[derive(Clone, Copy)]
struct ShownRoutine<'p> {
    number: usize,
    routine: &'p Routine,
}

impl fmt::Display for ShownRoutine<'_> {
    fn fmt<W: fmt::Write>(&self, f: &mut fmt::Formatter<W>) -> fmt::Result {
        writeln!(
            f,
            "routine {} node {} entry {:02x} rank {}",
            self.number, self.routine.node, self.routine.entry, self.routine.rank
        )?;
        let code = self.routine.code.as_slice();
        for at in 0..code.len() {
            writeln!(f, "  {at} {}", ShownInstr(&code[at]))?;
        }
        Ok(())
    }
}

impl fmt::Display for ShownProgram<'_> {
    fn fmt<W: fmt::Write>(&self, f: &mut fmt::Formatter<W>) -> fmt::Result {
        let routines = self.0.routines();
        for number in 0..routines.len() {
            let routine = &routines[number];
            write!(f, "{}", ShownRoutine { number, routine })?;
        }
        Ok(())
    }
}
