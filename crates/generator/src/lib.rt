//! Makes marshalling programs from the types of a specification.
#![tactic(auto)]

ghost use Rattle.std.specs.Prelude.{◌≡◌, IfOk, IfErr};
ghost use Rattle.marshal_program.specs.Plain.{plain_program};
ghost use Rattle.marshal_program.specs.Joined.{joined_program};
ghost use Rattle.marshal_program.specs.declared.fault.GenFault.TheVariants.{NoMemory};

mod code;
mod joined_code;
mod routine;

use crate::routine::{joined_routines, plain_routines};
use marshal_program::{GenFault, Program};
use std::alloc::Global;
use type_model::Model;

/// The plain program of the model's graph: the routine of each node says what the node's values are
/// in CDR (ISO/IEC 19500-2), part by part, and may start at every position.
///
/// # Errors
/// Want of memory alone: a plain program keeps the rules of a program.
pub fn plain(alloc: Global, model: &Model) -> Result<Program, GenFault>
    ensures made { IfOk result (λ program. program ≡ plain_program model.now.graph) }
    ensures refused { IfErr result (λ fault. fault ≡ NoMemory) }
{
    match Program::new(plain_routines(alloc, model.graph())?) {
        Ok(program) => Ok(program),
        Err(_) => unreachable!(),
    }
}

/// The joined program of the model's graph: the plain one, but that the routine of a structure whose
/// members are all integers, octets and characters does these in runs of one width.
///
/// # Errors
/// Want of memory alone: a joined program keeps the rules of a program.
pub fn joined(alloc: Global, model: &Model) -> Result<Program, GenFault>
    ensures made { IfOk result (λ program. program ≡ joined_program model.now.graph) }
    ensures refused { IfErr result (λ fault. fault ≡ NoMemory) }
{
    match Program::new(joined_routines(alloc, model.graph())?) {
        Ok(program) => Ok(program),
        Err(_) => unreachable!(),
    }
}
