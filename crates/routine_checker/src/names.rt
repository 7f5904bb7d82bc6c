//! The nodes that are asked for by name.

ghost use Rattle.std.specs.Prelude.{◌≡◌, All, IfErr, OnOk, OnErr, IsSome, Some, None};
ghost use Rattle.marshal_program.specs.Served.{served_by};
ghost use Rattle.routine_checker.specs.Steps.{name_fault, has_routine};

use crate::fault::CheckFault;
use marshal_program::{Program, Routine};

fn has_routine(program: &[Routine], node: u32) -> bool
    ensures { result ≡ has_routine program.now node }
{
    program.iter().any(|routine| routine.node == node)
}

/// Accepts a node that has a routine that may start at every position. Takes no memory.
///
/// # Errors
/// `NamedEntryNotFull` where some routine is one of the node, else `NoRoutine`.
pub fn check_name(program: &Program, node: u32) -> Result<(), CheckFault>
    ensures ok { OnOk result (IsSome (served_by program.now node)) }
    ensures refused { OnErr result (IsSome (served_by program.now node) → ⊥) }
    ensures accepted { OnOk result (name_fault program.now node ≡ None) }
    ensures fault { IfErr result (λ fault. name_fault program.now node ≡ Some fault) }
{
    if program.serving(node).is_some() {
        Ok(())
    } else if has_routine(program.routines(), node) {
        Err(CheckFault::NamedEntryNotFull { node })
    } else {
        Err(CheckFault::NoRoutine { node })
    }
}
