//! The sample table `builtin`.

ghost use Rattle.std.specs.Prelude.{◌≡◌, [], IfOk};
ghost use Rattle.std.specs.Bool.{OnFalse};
ghost use Rattle.type_graph.specs.GraphRules.{IsGraph};
ghost use Rattle.type_graph.specs.Refusal.{wants_memory as graph_wants_memory};
ghost use Rattle.type_model.specs.ModelRules.{IsModel};
ghost use Rattle.command_tables.specs.Sample.{everywhere, sample_model, sample_nodes, sample_program, sample_table};

use marshal_program::{Code, Instr, Program, Routine};
use position_checker::{Accepted, CheckFault, check};
use std::alloc::{AllocError, Global};
use table_file::{Table, Which};
use type_graph::{Graph, GraphFault, Items, Members, Node, Width};
use type_model::{Model, Name};

/// The rules hold, so that only memory can have been the cause.
#[tactic(auto, using(crate::proofs::SampleRules::sample_is_graph))]
fn graph_memory(fault: GraphFault) -> AllocError
    requires { OnFalse (graph_wants_memory fault) (IsGraph sample_nodes → ⊥) }
{
    match fault {
        GraphFault::NoMemory => AllocError,
        _ => unreachable!(),
    }
}

/// The rules hold, so that only memory can have been the cause.
#[tactic(auto, using(crate::proofs::SampleRules::sample_is_model))]
fn model_memory(fault: GraphFault) -> AllocError
    requires { OnFalse (graph_wants_memory fault) (IsModel sample_model → ⊥) }
{
    match fault {
        GraphFault::NoMemory => AllocError,
        _ => unreachable!(),
    }
}

fn graph(alloc: Global) -> Result<Graph, AllocError>
    ensures { IfOk result (λ graph. graph ≡ sample_nodes) }
{
    let members = Members::new(vec![in alloc; 0, 1, 2]?);
    let nodes = vec![in alloc;
        Node::Octet,
        Node::Integer {
            width: Width::Four,
            signed: false
        },
        Node::Text { bound: 0 },
        Node::Struct { members },
    ]?;
    match Graph::from_nodes(alloc, nodes) {
        Ok(graph) => Ok(graph),
        Err(fault) => Err(graph_memory(fault)),
    }
}

fn model(alloc: Global) -> Result<Model, AllocError>
    ensures { IfOk result (λ model. model ≡ sample_model) }
{
    let name = Name::new(String::from_str(alloc, "S")?);
    let names = Items::new(vec![in alloc; (name, 3)]?);
    let interfaces = Items::new(Vec::new(alloc));
    let operations = Items::new(Vec::new(alloc));
    let exceptions = Items::new(Vec::new(alloc));
    match Model::new(
        alloc,
        graph(alloc)?,
        names,
        interfaces,
        operations,
        exceptions,
    ) {
        Ok(model) => Ok(model),
        Err(fault) => Err(model_memory(fault)),
    }
}

/// A routine that may start and end at every position.
fn routine(node: u32, rank: u32, code: Vec<Instr>) -> Routine
    ensures { result ≡ everywhere node rank code.items }
{
    Routine {
        node,
        entry: u8::MAX,
        exits: [u8::MAX; 8],
        rank,
        code: Code::new(code),
    }
}

/// The rules hold, so that no program is refused.
#[tactic(auto, using(crate::proofs::SampleRules::sample_is_program))]
fn program(alloc: Global) -> Result<Program, AllocError>
    ensures { IfOk result (λ program. program ≡ sample_program) }
{
    let number = vec![in alloc;
        Instr::Align { to: Width::Four },
        Instr::Words {
            width: Width::Four,
            n: 1
        },
    ]?;
    let text = vec![in alloc; Instr::Align { to: Width::Four }, Instr::Text { bound: 0 }]?;
    let members = vec![in alloc;
        Instr::Call { routine: 0 },
        Instr::Call { routine: 1 },
        Instr::Call { routine: 2 },
    ]?;
    let routines = vec![in alloc;
        routine(0, 0, vec![in alloc; Instr::Octets { n: 1 }]?),
        routine(1, 0, number),
        routine(2, 0, text),
        routine(3, 1, members),
    ]?;
    match Program::new(routines) {
        Ok(program) => Ok(program),
        Err(_) => unreachable!(),
    }
}

#[tactic(auto, using(crate::proofs::SampleRules::sample_has_uses))]
fn table(alloc: Global) -> Result<Table, AllocError>
    ensures { IfOk result (λ table. table ≡ sample_table) }
{
    let uses = Items::new(vec![in alloc; Which::First]?);
    match Table::new(model(alloc)?, program(alloc)?, Program::empty(alloc), uses) {
        Ok(table) => Ok(table),
        Err(_) => unreachable!(),
    }
}

/// The table that the commands know as `builtin`: a graph of four types, an octet, an unsigned
/// long, a string, and the structure of the three, which has the name `S`, with its plain program.
///
/// # Errors
/// Want of memory alone: a plain program isn't refused.
#[tactic(auto, using(crate::proofs::SampleRules::sample_is_lone))]
pub fn sample(alloc: Global) -> Result<Accepted, AllocError>
    ensures { IfOk result (λ accepted. accepted ≡ sample_table) }
{
    match check(alloc, table(alloc)?) {
        Ok(accepted) => Ok(accepted),
        Err(refused) => match refused.fault {
            CheckFault::NoMemory => Err(AllocError),
            _ => unreachable!(),
        },
    }
}
