//! What was read of a table file, before the rules of tables are tested.

ghost use Rattle.std.specs.Prelude.{◌≡◌, IfOk, IfErr, OnErr};
ghost use Rattle.std.specs.Bool.{OnFalse};
ghost use Rattle.marshal_program.specs.declared.fault.TableFault.TheVariants.{NoMemory};
ghost use Rattle.marshal_program.specs.ProgramRules.{IsProgram};
ghost use Rattle.type_graph.specs.GraphRules.{IsGraph};
ghost use Rattle.type_model.specs.ModelRules.{IsModel};
ghost use Rattle.table_file.specs.Table.{IsTable};
ghost use Rattle.table_file.specs.Refusal.{wants_memory};
ghost use Rattle.table_file.specs.inner.TableCodes.{model_from, table_from};
ghost use Rattle.table_file.specs.inner.Decoding.{fields_of, table_fault};

use crate::table::{Table, Which};
use crate::uses::are_uses;
use marshal_program::{Program, Routine, TableFault};
use std::alloc::Global;
use type_graph::{Graph, GraphFault, Items, Node};
use type_model::{Exception, Interface, Model, Name, Operation};

/// The nodes, names, interfaces, operations and exceptions.
pub(crate) type ModelDraft = (
    Items<Node>,
    (
        Items<(Name, u32)>,
        (Items<Interface>, (Items<Operation>, Items<Exception>)),
    ),
);

/// A model and two programs.
pub(crate) type ProgramsDraft = (ModelDraft, (Items<Routine>, Items<Routine>));

/// All parts of a table.
pub(crate) type TableDraft = (ProgramsDraft, Items<Which>);

/// The parts of a file of version 1.
pub(crate) type OldDraft = (ModelDraft, Items<Routine>);

fn fault_of(fault: GraphFault) -> TableFault
    ensures { result ≡ table_fault fault }
{
    match fault {
        GraphFault::NoMemory => TableFault::NoMemory,
        _ => TableFault::BadNumber,
    }
}

pub(crate) fn graph_of(alloc: Global, nodes: Items<Node>) -> Result<Graph, TableFault>
    ensures kept { IfOk result (λ graph. graph ≡ nodes) }
    ensures refused { IfErr result (λ fault. OnFalse (wants_memory fault) (IsGraph nodes → ⊥)) }
{
    match Graph::from_nodes(alloc, nodes.into_vec()) {
        Ok(graph) => Ok(graph),
        Err(fault) => Err(fault_of(fault)),
    }
}

fn model_of(alloc: Global, draft: ModelDraft) -> Result<Model, TableFault>
    ensures kept { IfOk result (λ model. model ≡ model_from draft) }
    ensures refused { IfErr result (λ fault. OnFalse (wants_memory fault) (IsModel (model_from draft) → ⊥)) }
{
    let (nodes, (names, (interfaces, (operations, exceptions)))) = draft;
    let graph = graph_of(alloc, nodes)?;
    match Model::new(alloc, graph, names, interfaces, operations, exceptions) {
        Ok(model) => Ok(model),
        Err(fault) => Err(fault_of(fault)),
    }
}

/// The fault that is told of two: numbers first, then routines that are empty, then ranks.
fn first_of(fault: TableFault, other: TableFault) -> TableFault {
    match (&fault, &other) {
        (TableFault::BadNumber, _) => fault,
        (_, TableFault::BadNumber) => other,
        (TableFault::EmptyRoutine, _) => fault,
        (_, TableFault::EmptyRoutine) => other,
        _ => fault,
    }
}

fn programs_of(
    first: Items<Routine>,
    second: Items<Routine>,
) -> Result<(Program, Program), TableFault>
    ensures kept { IfOk result (λ both. (both.0 ≡ first) × (both.1 ≡ second)) }
    ensures refused { OnErr result (IsProgram first → IsProgram second → ⊥) }
{
    match (
        Program::new(first.into_vec()),
        Program::new(second.into_vec()),
    ) {
        (Ok(first), Ok(second)) => Ok((first, second)),
        (Err(fault), Err(other)) => Err(first_of(fault, other)),
        (Err(fault), Ok(_)) => Err(fault),
        (Ok(_), Err(fault)) => Err(fault),
    }
}

/// The table of these parts.
///
/// # Errors
/// `BadNumber`, then `EmptyRoutine`, then `RankRises` of both programs; or want of memory.
pub(crate) fn finish(alloc: Global, draft: TableDraft) -> Result<Table, TableFault>
    ensures kept { IfOk result (λ table. table ≡ table_from draft) }
    ensures refused { IfErr result (λ fault. OnFalse (wants_memory fault) (IsTable (table_from draft) → ⊥)) }
{
    let ((model, (first, second)), uses) = draft;
    let model = model_of(alloc, model)?;
    if !are_uses(model.names(), uses.as_slice()) {
        return Err(TableFault::BadNumber);
    }
    let (first, second) = programs_of(first, second)?;
    Table::new(model, first, second, uses)
}

/// The parts that a file of version 1 stands for: no second program, and all names use the first.
pub(crate) fn draft_of(alloc: Global, old: OldDraft) -> Result<TableDraft, TableFault>
    ensures kept { IfOk result (λ draft. draft ≡ fields_of old) }
    ensures refused { IfErr result (λ fault. fault ≡ NoMemory) }
{
    let (model, first) = old;
    let uses = vec![in alloc; Which::First; model.1.0.as_slice().len()]?;
    let second = Items::new(Vec::new(alloc));
    Ok(((model, (first, second)), Items::new(uses)))
}
