//! Which of two programs serves the names of a model.

ghost use Rattle.std.specs.Prelude.{◌≡◌, false, [], length, replicate, Ok, IfOk};
ghost use Rattle.marshal_program.specs.Plain.{plain_program};
ghost use Rattle.table_file.specs.Table.{AreUses, table_of};
ghost use Rattle.idl_compiler.specs.Settlement.{IsSettled, plain_table};

use marshal_program::{GenFault, Program};
use position_checker::{Accepted, CheckFault, check};
use std::alloc::{AllocError, Global};
use table_file::{Table, Which};
use type_graph::Items;
use type_model::Model;

/// An accepted table, and whether the planned program serves its names.
#[derive(Drop)]
pub struct Settled {
    pub table: Accepted,
    pub is_planned: bool,
}

/// One use for all names.
fn uses(alloc: Global, model: &Model, program: Which) -> Result<Items<Which>, AllocError>
    ensures { IfOk result (λ uses. uses ≡ replicate (length model.now.names) program) }
{
    let uses = vec![in alloc; program; model.names().len()]?;
    Ok(Items::new(uses))
}

/// All names use one program.
#[tactic(auto, using(crate::proofs::TableFacts::one_use))]
fn table(
    alloc: Global,
    model: Model,
    first: Program,
    second: Program,
    program: Which,
) -> Result<Table, AllocError>
    ensures { IfOk result (λ table. table ≡ table_of model first second (replicate (length model.names) program)) }
{
    let uses = uses(alloc, &model, program)?;
    match Table::new(model, first, second, uses) {
        Ok(table) => Ok(table),
        Err(_) => unreachable!(),
    }
}

/// The table with the plain program alone, which isn't refused.
#[tactic(auto, using(crate::proofs::TableFacts::plain_is_lone))]
fn with_plain(alloc: Global, model: Model, plain: Program) -> Result<Settled, AllocError>
    requires { plain ≡ plain_program model.graph }
    ensures table { IfOk result (λ settled. settled.table ≡ plain_table model) }
    ensures used { IfOk result (λ settled. settled.is_planned ≡ false) }
{
    match check(
        alloc,
        table(alloc, model, plain, Program::empty(alloc), Which::First)?,
    ) {
        Ok(table) => Ok(Settled {
            table,
            is_planned: false,
        }),
        Err(refused) => match refused.fault {
            CheckFault::NoMemory => Err(AllocError),
            _ => unreachable!(),
        },
    }
}

/// The same for a table that was refused.
fn without_planned(alloc: Global, refused: Table) -> Result<Settled, AllocError>
    requires { refused.first ≡ plain_program refused.model.graph }
    ensures table { IfOk result (λ settled. settled.table ≡ plain_table refused.model) }
    ensures used { IfOk result (λ settled. settled.is_planned ≡ false) }
{
    let (model, plain, _, _) = refused.parts();
    with_plain(alloc, model, plain)
}

fn with_planned(
    alloc: Global,
    model: Model,
    plain: Program,
    planned: Program,
) -> Result<Settled, AllocError>
    requires { plain ≡ plain_program model.graph }
    ensures { IfOk result (λ settled. IsSettled model (Ok planned) settled) }
{
    match check(alloc, table(alloc, model, plain, planned, Which::Second)?) {
        Ok(table) => Ok(Settled {
            table,
            is_planned: true,
        }),
        Err(refused) => match refused.fault {
            CheckFault::NoMemory => Err(AllocError),
            _ => without_planned(alloc, refused.table),
        },
    }
}

/// Checks the table of the model with its plain program and, where there is one, the planned
/// program, which serves all names. Where there is none or the check refuses it, the table has the
/// plain program alone, which isn't refused.
///
/// # Errors
/// Want of memory alone, that of the planner too.
pub fn settle(
    alloc: Global,
    model: Model,
    plain: Program,
    planned: Result<Program, GenFault>,
) -> Result<Settled, AllocError>
    requires { plain ≡ plain_program model.graph }
    ensures { IfOk result (λ settled. IsSettled model planned settled) }
{
    match planned {
        Ok(planned) => with_planned(alloc, model, plain, planned),
        Err(GenFault::NoMemory) => Err(AllocError),
        Err(GenFault::Limit) => with_plain(alloc, model, plain),
    }
}
