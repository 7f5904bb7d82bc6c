//! Arguments.

ghost use Rattle.std.specs.Prelude.{◌<◌, length, IfOk, IfErr};
ghost use Rattle.std.specs.Bool.{OnFalse};
ghost use Rattle.type_model.specs.Names.{IsNamed};
ghost use Rattle.value_text.specs.Refusal.{wants_memory};
ghost use Rattle.command_texts.specs.Bodies.{IsTapeOfText, SaysNone};

use position_checker::Accepted;
use std::alloc::Global;
use type_graph::Graph;
use type_model::part_names::PartNames;
use value_text::{ReadFault, packed, read};

fn tape_in(
    alloc: Global,
    graph: &Graph,
    names: &PartNames,
    node: u32,
    text: &str,
) -> Result<Vec<u8>, ReadFault>
    requires { node < length graph.now }
    ensures said { IfOk result (λ tape. IsTapeOfText names.now graph.now node text.now tape.items) }
    ensures refused { IfErr result (λ fault. OnFalse (wants_memory fault)
        (SaysNone names.now graph.now node text.now)) }
{
    let value = match read(alloc, graph, names, node, text) {
        Ok(value) => value,
        Err(fault) => return Err(fault),
    };
    match packed(alloc, graph, node, &value) {
        Ok(tape) => Ok(tape),
        Err(_) => Err(ReadFault::NoMemory),
    }
}

/// The tape of the value of a node that a text says: of the frame of a request the arguments.
///
/// # Errors
/// Where the text says no value of the node: what was wanted, and where. Want of memory.
pub fn argument_tape(
    alloc: Global,
    table: &Accepted,
    names: &PartNames,
    node: u32,
    text: &str,
) -> Result<Vec<u8>, ReadFault>
    requires { IsNamed table.now.model.names node }
    ensures said { IfOk result (λ tape. IsTapeOfText names.now table.now.model.graph node text.now tape.items) }
    ensures refused { IfErr result (λ fault.
        OnFalse (wants_memory fault) (SaysNone names.now table.now.model.graph node text.now)) }
{
    tape_in(alloc, table.table().model().graph(), names, node, text)
}
