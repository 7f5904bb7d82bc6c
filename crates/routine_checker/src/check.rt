//! The routines of a program, judged one after the other, and the nodes that have names.

ghost use Rattle.std.specs.Prelude.{◌≡◌, ◌≢◌, ◌≤◌, ◌<◌, ℕ, List, drop, length, IfOk, IfErr, OnOk, Some, None, Ok, Err};
ghost use Rattle.std.specs.Bool.{OnFalse};
ghost use Rattle.marshal_program.specs.Plain.{plain_program};
ghost use Rattle.marshal_program.specs.Joined.{joined_program};
ghost use Rattle.routine_checker.specs.Steps.{followed, entry_fault, routine_fault, program_fault};
ghost use Rattle.routine_checker.specs.inner.Noted.{AreCounts};
ghost use Rattle.routine_checker.specs.inner.Progress.{work_behind, state_of, IsTaken};
ghost use Rattle.routine_checker.specs.Refusal.{wants_memory};
ghost use Rattle.routine_checker.specs.Right.{AreRight};

use crate::fault::{CheckFault, RoutinePlace};
use crate::noted::Counts;
use crate::pieces::pieces;
use crate::sets::{gaps_agree, has, is_within, only};
use crate::step::Reached;
use crate::work::{NodesTaken, Work};
use marshal_program::{Program, Routine};
use std::alloc::{AllocError, Global};
use type_graph::{Graph, Width};

/// How many instructions of a routine do work of its node, and whether that is all of its
/// instructions and all of its work.
#[derive(Clone, Copy)]
struct Taken {
    instrs: u32,
    is_all: bool,
}

/// Takes the work of the routine's node, which is the same from each of its entries.
fn take_work(
    alloc: Global,
    graph: &Graph,
    counts: &Counts,
    program: &[Routine],
    routine: &Routine,
) -> Result<Taken, AllocError>
    requires code { length routine.now.code ≤ 65536 }
    requires counts { AreCounts graph.now counts.now }
    ensures { IfOk result (IsTaken graph.now program.now routine.now) }
{
    let code = routine.code.as_slice();
    let mut work = Work::new(alloc, routine.node)?;
    for n in 0..code.len() {
        let instr = &code[n];
        let wanted = NodesTaken {
            nodes: graph.nodes(),
            program,
            instr,
        };
        if !work.take(wanted, counts, pieces(instr))? {
            return Ok(Taken {
                instrs: n as u32,
                is_all: false,
            });
        }
    }
    Ok(Taken {
        instrs: code.len() as u32,
        is_all: work.is_done(graph.nodes())?,
    })
}

/// Follows the first instructions.
fn follow(
    start: Reached,
    instrs: u32,
    graph: &Graph,
    program: &[Routine],
    at: RoutinePlace,
    routine: &Routine,
) -> Result<Reached, CheckFault>
    requires code { length routine.now.code ≤ 65536 }
    requires instrs { instrs ≤ length routine.now.code }
    ensures ok { IfOk result (λ end. (work rest : List ℕ)
        → work_behind graph.now program.now routine.now.code instrs work ≡ Some rest
        → followed graph.now program.now at 0 routine.now.code (state_of work start)
        ≡ followed graph.now program.now at instrs (drop instrs routine.now.code) (state_of rest end)) }
    ensures refused { IfErr result (λ fault. (work rest : List ℕ)
        → work_behind graph.now program.now routine.now.code instrs work ≡ Some rest
        → followed graph.now program.now at 0 routine.now.code (state_of work start) ≡ Err fault) }
{
    let code = routine.code.as_slice();
    let mut reached = start;
    for n in 0..instrs {
        reached = match reached.step(graph, program, at, n, &code[n as usize]) {
            Ok(next) => next,
            Err(fault) => return Err(fault),
        };
    }
    Ok(reached)
}

/// A routine from one of its entries.
fn check_entry(
    taken: Taken,
    graph: &Graph,
    program: &[Routine],
    at: RoutinePlace,
    routine: &Routine,
    entry: u32,
) -> Result<(), CheckFault>
    requires code { length routine.now.code ≤ 65536 }
    requires taken { IsTaken graph.now program.now routine.now taken }
    requires entry { entry < 8 }
    ensures ok { OnOk result (entry_fault graph.now program.now at routine.now entry ≡ None) }
    ensures refused { IfErr result (λ fault. entry_fault graph.now program.now at routine.now entry ≡ Some fault) }
{
    let start = Reached {
        places: only(entry),
        gap: Width::One,
    };
    let end = match follow(start, taken.instrs, graph, program, at, routine) {
        Ok(end) => end,
        Err(fault) => return Err(fault),
    };
    let instr = taken.instrs;
    if !taken.is_all {
        return Err(CheckFault::WrongWork { at, instr });
    }
    if !gaps_agree(end.places, end.gap, Width::One) {
        return Err(CheckFault::WrongPadding { at, instr });
    }
    if !is_within(end.places, routine.exits[entry as usize]) {
        return Err(CheckFault::ExitsTooSmall { at, entry });
    }
    Ok(())
}

/// A routine from each of its entries; the graph has so many nodes.
fn check_routine(
    alloc: Global,
    graph: &Graph,
    counts: &Counts,
    nodes: usize,
    program: &[Routine],
    at: RoutinePlace,
    routine: &Routine,
) -> Result<(), CheckFault>
    requires nodes { nodes ≡ length graph.now }
    requires counts { AreCounts graph.now counts.now }
    requires code { length routine.now.code ≤ 65536 }
    ensures ok { OnOk result (routine_fault graph.now program.now at routine.now ≡ None) }
    ensures refused { IfErr result
        (λ fault. OnFalse (wants_memory fault) (routine_fault graph.now program.now at routine.now ≡ Some fault)) }
{
    if routine.node as usize >= nodes {
        return Err(CheckFault::WrongWork { at, instr: 0 });
    }
    let taken = take_work(alloc, graph, counts, program, routine)?;
    for entry in 0..8u32 {
        if has(routine.entry, entry) {
            match check_entry(taken, graph, program, at, routine, entry) {
                Ok(()) => (),
                Err(fault) => return Err(fault),
            }
        }
    }
    Ok(())
}

/// Accepts a program whose routines, from each of their entries, do just what their nodes mean.
/// The plain and the joined program of the graph are refused for want of memory alone. Which of a
/// table's programs it is, 0 or 1, is told with its faults.
///
/// # Errors
/// The first fault of the first routine that is wrong, from the first of its entries from which it
/// is: `WrongWork`, `EntryOutside`, `WrongPadding` at an instruction, `ExitsTooSmall` behind the
/// last. Want of memory.
pub fn check_routines(
    alloc: Global,
    graph: &Graph,
    program: &Program,
    which: u8,
) -> Result<(), CheckFault>
    ensures right { OnOk result (AreRight graph.now program.now) }
    ensures plain { IfErr result (λ fault. OnFalse (wants_memory fault) (program.now ≢ plain_program graph.now)) }
    ensures joined { IfErr result (λ fault. OnFalse (wants_memory fault) (program.now ≢ joined_program graph.now)) }
    ensures accepted { OnOk result (program_fault which graph.now program.now ≡ None) }
    ensures fault { IfErr result (λ fault. OnFalse (wants_memory fault)
        (program_fault which graph.now program.now ≡ Some fault)) }
{
    let nodes = graph.nodes().len();
    let routines = program.routines();
    let counts = Counts::new(alloc, graph, routines)?;
    for number in 0..routines.len() {
        let at = RoutinePlace {
            program: which,
            routine: number as u32,
        };
        match check_routine(
            alloc,
            graph,
            &counts,
            nodes,
            routines,
            at,
            &routines[number],
        ) {
            Ok(()) => (),
            Err(fault) => return Err(fault),
        }
    }
    Ok(())
}
