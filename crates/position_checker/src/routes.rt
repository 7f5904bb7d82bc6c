//! The routines that serve the nodes of names.

ghost use Rattle.std.specs.Prelude.{◌≡◌, ◌<◌, ℕ, length, slice_get, IfOk, IfErr, OnOk, IsSome, Some, None};
ghost use Rattle.std.specs.Bool.{OnFalse};
ghost use Rattle.routine_checker.specs.Refusal.{wants_memory};
ghost use Rattle.routine_checker.specs.Steps.{name_fault};
ghost use Rattle.marshal_program.specs.Served.{served_by};
ghost use Rattle.table_file.specs.declared.table.Which.{Which};
ghost use Rattle.table_file.specs.Table.{TableParts, program_at};
ghost use Rattle.position_checker.specs.Acceptance.{IsLone, Uses};
ghost use Rattle.position_checker.specs.inner.Routes.{AreRoutes, IsServing};
ghost use Rattle.position_checker.specs.Verdict.{names_fault};

use crate::served::serving_of;
use routine_checker::{CheckFault, check_name};
use std::alloc::{AllocError, Global};
use table_file::{Table, Which};

/// Where the routine of a node stands: which of the two programs, and its number there.
#[derive(Clone, Copy)]
pub(crate) struct Route {
    pub program: Which,
    pub routine: u32,
}

/// For each node the routine of each of the two programs that serves it.
#[derive(Drop)]
pub(crate) struct Serving {
    pub first: Vec<Option<u32>>,
    pub second: Vec<Option<u32>>,
}

impl Serving {
    fn new(alloc: Global, table: &Table) -> Result<Serving, AllocError>
        ensures { IfOk result (IsServing table.now) }
    {
        let count = table.model().graph().nodes().len();
        Ok(Serving {
            first: serving_of(alloc, table.first(), count)?,
            second: serving_of(alloc, table.second(), count)?,
        })
    }

    fn of(&self, program: Which, node: u32) -> Option<u32>
        ensures { (table : TableParts) → IsServing table self.now → node < length table.model.graph
            → result ≡ served_by (program_at table program) node }
    {
        let serving = match program {
            Which::First => self.first.as_slice(),
            Which::Second => self.second.as_slice(),
        };
        serving.get(node as usize).copied().flatten()
    }
}

/// The routine of a program that serves the node.
fn found(table: &Table, serving: &Serving, program: Which, node: u32) -> Result<Route, CheckFault>
    requires serving { IsServing table.now serving.now }
    requires node { node < length table.now.model.graph }
    ensures program { IfOk result (λ route. route.program ≡ program) }
    ensures served { IfOk result (λ route. served_by (program_at table.now program) node ≡ Some route.routine) }
    ensures refused { IfErr result (λ fault. OnFalse (wants_memory fault)
        (IsSome (served_by (program_at table.now program) node) → ⊥)) }
    ensures accepted { OnOk result (name_fault (program_at table.now program) node ≡ None) }
    ensures fault { IfErr result (λ fault. name_fault (program_at table.now program) node ≡ Some fault) }
{
    if let Some(routine) = serving.of(program, node) {
        return Ok(Route { program, routine });
    }
    match check_name(table.program(program), node) {
        Ok(()) => unreachable!(),
        Err(fault) => Err(fault),
    }
}

/// The routine that serves the node of the name at a place.
fn named(table: &Table, serving: &Serving, place: usize, node: u32) -> Result<Route, CheckFault>
    requires serving { IsServing table.now serving.now }
    requires node { node < length table.now.model.graph }
    requires place { place < length table.now.uses }
    ensures used { IfOk result (λ route. slice_get table.now.uses place ≡ Some route.program) }
    ensures served { IfOk result (λ route. served_by (program_at table.now route.program) node ≡ Some route.routine) }
    ensures refused { IfErr result (λ fault. OnFalse (wants_memory fault)
        ((program : Which) → slice_get table.now.uses place ≡ Some program
        → IsSome (served_by (program_at table.now program) node) → ⊥)) }
    ensures accepted { OnOk result ((program : Which) → slice_get table.now.uses place ≡ Some program
        → name_fault (program_at table.now program) node ≡ None) }
    ensures fault { IfErr result (λ fault. (program : Which) → slice_get table.now.uses place ≡ Some program
        → name_fault (program_at table.now program) node ≡ Some fault) }
{
    match table.uses().get(place) {
        Some(program) => found(table, serving, *program, node),
        None => unreachable!(),
    }
}

/// For each node of a name the routine that serves it.
pub(crate) fn routes_of(alloc: Global, table: &Table) -> Result<Vec<Option<Route>>, CheckFault>
    ensures routes { IfOk result (λ routes. AreRoutes table.now routes.items) }
    ensures served { OnOk result ((node : ℕ) (program : Which) → Uses table.now node program
        → IsSome (served_by (program_at table.now program) node)) }
    ensures refused { IfErr result (λ fault. OnFalse (wants_memory fault) (IsLone table.now → ⊥)) }
    ensures accepted { OnOk result (names_fault table.now (length table.now.uses) ≡ None) }
    ensures fault { IfErr result (λ fault. OnFalse (wants_memory fault)
        (names_fault table.now (length table.now.uses) ≡ Some fault)) }
{
    let serving = Serving::new(alloc, table)?;
    let mut routes = vec![in alloc; None; table.model().graph().nodes().len()]?;
    for place in 0..table.uses().len() {
        let node = table.model().names().pair(place).1;
        match named(table, &serving, place, node) {
            Ok(route) => routes[node as usize] = Some(route),
            Err(fault) => return Err(fault),
        }
    }
    Ok(routes)
}
