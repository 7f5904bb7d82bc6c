//! The table of the types, and that it is accepted.

ghost use Rattle.std.specs.Prelude.{◌≡◌, [], IfOk};
ghost use Rattle.marshal_program.specs.Plain.{plain_program};
ghost use Rattle.giop_types.specs.GiopModel.{giop_table, giop_uses};
ghost use Rattle.giop_types.specs.GiopNodes.{giop_nodes};

use crate::names::model;
use generator::plain;
use marshal_program::Program;
use position_checker::{Accepted, CheckFault, check};
use std::alloc::{AllocError, Global};
use table_file::{Table, Which};
use type_graph::Items;
use type_model::Model;

/// So many names have the types.
const NAMES: usize = 13;

fn program(alloc: Global, model: &Model) -> Result<Program, AllocError>
    ensures { IfOk result (λ program. program ≡ plain_program model.now.graph) }
{
    match plain(alloc, model) {
        Ok(program) => Ok(program),
        Err(_) => Err(AllocError),
    }
}

fn uses(alloc: Global) -> Result<Items<Which>, AllocError>
    ensures { IfOk result (λ uses. uses ≡ giop_uses) }
{
    let uses = vec![in alloc; Which::First; NAMES]?;
    Ok(Items::new(uses))
}

#[tactic(auto, using(crate::proofs::ModelFacts::giop_has_uses))]
fn table(alloc: Global) -> Result<Table, AllocError>
    ensures { IfOk result (λ table. table ≡ giop_table) }
{
    let model = model(alloc)?;
    let first = program(alloc, &model)?;
    let uses = uses(alloc)?;
    match Table::new(model, first, Program::empty(alloc), uses) {
        Ok(table) => Ok(table),
        Err(_) => unreachable!(),
    }
}

/// The types of GIOP 1.2 and IIOP with their plain program, which was found right.
///
/// # Errors
/// Want of memory alone: a plain program isn't refused.
#[tactic(auto, using(crate::proofs::ModelFacts::giop_is_lone))]
pub fn giop_types(alloc: Global) -> Result<Accepted, AllocError>
    ensures { IfOk result (λ accepted. accepted ≡ giop_table) }
{
    match check(alloc, table(alloc)?) {
        Ok(accepted) => Ok(accepted),
        Err(refused) => match refused.fault {
            CheckFault::NoMemory => Err(AllocError),
            _ => unreachable!(),
        },
    }
}
