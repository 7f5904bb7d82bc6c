//! Tables, judged.

ghost use Rattle.std.specs.Prelude.{◌≡◌, ◌≢◌, [], None, Some, IfOk, IfErr, OnOk};
ghost use Rattle.std.specs.Bool.{OnFalse};
ghost use Rattle.marshal_program.specs.Plain.{plain_program};
ghost use Rattle.marshal_program.specs.Joined.{joined_program};
ghost use Rattle.routine_checker.specs.Refusal.{wants_memory};
ghost use Rattle.routine_checker.specs.Right.{AreRight};
ghost use Rattle.table_file.specs.Table.{program_at};
ghost use Rattle.position_checker.specs.Acceptance.{IsLone, IsRight};
ghost use Rattle.position_checker.specs.inner.Routes.{AreRoutes};
ghost use Rattle.position_checker.specs.Verdict.{routines_fault, table_fault};

use crate::accepted::Accepted;
use crate::routes::{Route, routes_of};
use routine_checker::{CheckFault, check_routines};
use std::alloc::Global;
use table_file::{Table, Which};

/// A table that was refused, and why.
#[derive(Drop)]
pub struct Refused {
    pub fault: CheckFault,
    pub table: Table,
}

/// The routines of one of the two programs. One without routines is right.
fn check_program(alloc: Global, table: &Table, which: Which) -> Result<(), CheckFault>
    ensures right { OnOk result (AreRight table.now.model.graph (program_at table.now which)) }
    ensures empty { IfErr result (λ fault. OnFalse (wants_memory fault) (program_at table.now which ≢ [])) }
    ensures plain { IfErr result (λ fault. OnFalse (wants_memory fault)
        (program_at table.now which ≢ plain_program table.now.model.graph)) }
    ensures joined { IfErr result (λ fault. OnFalse (wants_memory fault)
        (program_at table.now which ≢ joined_program table.now.model.graph)) }
    ensures accepted { OnOk result (routines_fault table.now which ≡ None) }
    ensures fault { IfErr result (λ fault. OnFalse (wants_memory fault)
        (routines_fault table.now which ≡ Some fault)) }
{
    let program = table.program(which);
    if program.routines().is_empty() {
        return Ok(());
    }
    check_routines(alloc, table.model().graph(), program, which.number())
}

fn judge(alloc: Global, table: &Table) -> Result<Vec<Option<Route>>, CheckFault>
    ensures right { OnOk result (IsRight table.now) }
    ensures routes { IfOk result (λ routes. AreRoutes table.now routes.items) }
    ensures lone { IfErr result (λ fault. OnFalse (wants_memory fault) (IsLone table.now → ⊥)) }
    ensures accepted { OnOk result (table_fault table.now ≡ None) }
    ensures fault { IfErr result (λ fault. OnFalse (wants_memory fault) (table_fault table.now ≡ Some fault)) }
{
    match check_program(alloc, table, Which::First) {
        Ok(()) => (),
        Err(fault) => return Err(fault),
    }
    match check_program(alloc, table, Which::Second) {
        Ok(()) => (),
        Err(fault) => return Err(fault),
    }
    routes_of(alloc, table)
}

/// Accepts a table, whoever made it, whose routines, of both programs, do just what their nodes
/// mean, each from its entries, and in which each name's node is served by the program that the
/// name uses. A table whose first program is the plain or the joined program of its model, and
/// that has nothing else, is refused for want of memory alone.
///
/// # Errors
/// The table is handed back. The first fault of the routines in order, those of the first program first:
/// `WrongWork`, `EntryOutside`, `WrongPadding`, `ExitsTooSmall`; then of the names in order:
/// `NoRoutine`, `NamedEntryNotFull`. Want of memory.
pub fn check(alloc: Global, table: Table) -> Result<Accepted, Refused>
    ensures kept { IfOk result (λ accepted. accepted ≡ table) }
    ensures right { IfOk result IsRight }
    ensures handed_back { IfErr result (λ refused. refused.table ≡ table) }
    ensures lone { IfErr result (λ refused. OnFalse (wants_memory refused.fault) (IsLone table → ⊥)) }
    ensures accepted { OnOk result (table_fault table ≡ None) }
    ensures fault { IfErr result (λ refused. OnFalse (wants_memory refused.fault)
        (table_fault table ≡ Some refused.fault)) }
{
    match judge(alloc, &table) {
        Ok(routes) => Ok(Accepted { table, routes }),
        Err(fault) => Err(Refused { fault, table }),
    }
}
