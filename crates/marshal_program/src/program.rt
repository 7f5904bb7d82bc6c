//! A marshalling program: a list of routines that keeps the rules of a program.

ghost use Rattle.std.specs.Prelude.{◌≡◌, ◌≢◌, ◌<◌, [], length, slice_get, IfOk, IfErr, IfSome, OnErr, Some};
ghost use Rattle.marshal_program.specs.declared.fault.TableFault.TheVariants.{NoMemory};
ghost use Rattle.marshal_program.specs.ProgramRules.{IsRoutine, IsProgram};
ghost use Rattle.marshal_program.specs.Served.{served_by};

use crate::fault::TableFault;
use crate::instr::Routine;
use crate::rules::{MAX_ROUTINES, all_name_work, calls_lower, has_all_numbers, has_few_instrs};
use std::alloc::Global;
use std::marker::Model;

/// The routines, each named by its place in the list. A contract sees a program as that list.
#[derive(Drop)]
pub struct Program {
    routines: Vec<Routine>,
}

impl Model for Program {
    ghost use Rattle.std.specs.Prelude.{List};
    ghost use Rattle.marshal_program.specs.declared.instr.Routine.{Routine};

    ghost Value = { List Routine };

    ghost use Rattle.marshal_program.specs.ProgramRules.{IsProgram};

    ghost view = { λ p. p.routines.items };

    ghost invariant = { λ p. IsProgram p.routines.items };
}

/// The place of the first routine of a node that may start at every position.
fn place_of(routines: &[Routine], node: u32) -> Option<usize>
    ensures value { result ≡ served_by routines.now node }
    ensures within { IfSome result (λ place. place < length routines.now) }
{
    routines
        .iter()
        .position(|routine| routine.node == node && routine.entry == u8::MAX)
}

impl Program {
    /// The program of just these routines. Takes no memory.
    ///
    /// # Errors
    /// `BadNumber` first, then `EmptyRoutine`, then `RankRises`.
    pub fn new(routines: Vec<Routine>) -> Result<Program, TableFault>
        ensures kept { IfOk result (λ program. program ≡ routines.items) }
        ensures rules { IfOk result IsProgram }
        ensures refused { OnErr result (IsProgram routines.items → ⊥) }
        ensures no_memory { IfErr result (λ fault. fault ≢ NoMemory) }
    {
        let count = routines.len();
        if count > MAX_ROUTINES || !has_few_instrs(&routines) {
            return Err(TableFault::BadNumber);
        }
        if !routines
            .iter()
            .all(|routine| has_all_numbers(count, routine))
        {
            return Err(TableFault::BadNumber);
        }
        if !all_name_work(&routines) {
            return Err(TableFault::EmptyRoutine);
        }
        if !routines
            .iter()
            .all(|routine| calls_lower(&routines, routine))
        {
            return Err(TableFault::RankRises);
        }
        Ok(Program { routines })
    }

    /// The program without routines. Takes no memory.
    #[tactic(auto, using(crate::proofs::NoRoutine::no_routine))]
    pub fn empty(alloc: Global) -> Program
        ensures value { result ≡ [] }
        ensures rules { IsProgram result }
    {
        Program {
            routines: Vec::new(alloc),
        }
    }

    /// All routines, in order.
    pub fn routines(&self) -> &[Routine]
        ensures value { result.now ≡ self.now }
        ensures rules { IsProgram self.now }
    {
        self.routines.as_slice()
    }

    /// The routine of a number.
    pub fn routine(&self, number: u32) -> &Routine
        requires { number < length self.now }
        ensures value { slice_get self.now number ≡ Some result.now }
        ensures routine_rules { IsRoutine self.now result.now }
        ensures rules { IsProgram self.now }
    {
        &self.routines[number as usize]
    }

    /// The number of the routine that serves a node: the first with that node that may start at
    /// every position. Takes no memory.
    pub fn serving(&self, node: u32) -> Option<u32>
        ensures value { result ≡ served_by self.now node }
        ensures within { IfSome result (λ number. number < length self.now) }
    {
        let place = place_of(&self.routines, node)?;
        Some(place as u32)
    }
}
