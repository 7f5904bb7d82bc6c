//! Bodies as text.

ghost use Rattle.std.specs.Prelude.{IfOk, IfSome, IfNone};
ghost use Rattle.std.specs.String.{string_bytes};
ghost use Rattle.type_model.specs.Names.{IsNamed};
ghost use Rattle.command_texts.specs.Bodies.{HasNoValue, IsTextOfBody};

use giop_types::find_value;
use position_checker::Accepted;
use std::alloc::{AllocError, Global};
use type_graph::Order;
use type_model::part_names::PartNames;
use value_text::printed;

/// The text of the value of a node with which octets at a place of a message begin; none where they
/// begin with no value of it.
///
/// # Errors
/// Want of memory.
pub(crate) fn body_text(
    alloc: Global,
    table: &Accepted,
    names: &PartNames,
    node: u32,
    order: Order,
    place: u64,
    octets: &[u8],
) -> Result<Option<String>, AllocError>
    requires { IsNamed table.now.model.names node }
    ensures found { IfOk result (λ o. IfSome o (λ text.
        IsTextOfBody names.now table.now.model.graph order node place octets.now (string_bytes text))) }
    ensures none { IfOk result (λ o. IfNone o (HasNoValue table.now.model.graph order node place octets.now)) }
{
    let tape = match find_value(table, alloc, node, order, place, octets)? {
        Some((tape, _)) => tape,
        None => return Ok(None),
    };
    let graph = table.table().model().graph();
    Ok(Some(printed(alloc, graph, names, node, tape.as_slice())?))
}
