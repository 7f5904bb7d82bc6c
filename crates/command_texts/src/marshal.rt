//! Values of a table, from texts to octets and back.

ghost use Rattle.std.specs.Prelude.{◌≡◌, ◌∷◌, ◌++◌, ◌<◌, length, IfOk, IfErr, Ok};
ghost use Rattle.std.specs.String.{string_bytes};
ghost use Rattle.std.specs.Fmt.{decimal};
ghost use Rattle.type_graph.specs.Value.{Fits, node_at, tape_of};
ghost use Rattle.idl_value.specs.View.{tree_of};
ghost use Rattle.type_model.specs.Names.{IsNamed};
ghost use Rattle.command_words.specs.Requests.{ask_of};
ghost use Rattle.command_tables.specs.Lines.{PrintsOctets, HasNoOctets, HasNoTape};
ghost use Rattle.command_texts.specs.Lines.{IsRefusalAt, IsTextLine, IsTextRefusal, Prints, PrintsSaid, PrintsTextOf};
ghost use Rattle.command_texts.specs.inner.Tapes.{IsOfRun, IsTextOf};
ghost use Rattle.value_text.specs.Tapes.{IsTape};
ghost use Rattle.command_words.specs.declared.requests.value.Way.TheVariants.{Encode, Decode};

use command_tables::{Refusal, octets_line, octets_of};
use command_words::requests::{ValueRequest, Way};
use idl_value::Value;
use position_checker::Accepted;
use std::alloc::{AllocError, Global};
use type_graph::Graph;
use type_model::part_names::PartNames;
use value_text::{packed, printed, read};

/// The octets of a value, as a line.
fn encode_value<'a>(
    alloc: Global,
    table: &Accepted,
    node: u32,
    request: &ValueRequest<'a>,
    value: &Value,
) -> Result<String, Refusal<'a>>
    requires named { IsNamed table.now.model.names node }
    requires fits { Fits table.now.model.graph (node_at table.now.model.graph node) (tree_of value.now) 64 }
    ensures ok { IfOk result (λ line. PrintsOctets table.now.model.graph request.now.order node request.now.pos
        (tape_of table.now.model.graph (node_at table.now.model.graph node) (tree_of value.now)) (string_bytes line)) }
    ensures err { IfErr result (λ refusal. IsOfRun refusal (HasNoOctets table.now.model.graph request.now.order node
        request.now.pos (tape_of table.now.model.graph (node_at table.now.model.graph node) (tree_of value.now)))) }
{
    let tape = packed(alloc, table.table().model().graph(), node, value)?;
    let octets = table.write(alloc, node, request.order, request.pos, tape.as_slice())?;
    Ok(octets_line(alloc, octets.as_slice())?)
}

/// The octets of the value that a text says, as a line.
fn encode<'a>(
    alloc: Global,
    table: &Accepted,
    names: &PartNames,
    node: u32,
    request: &ValueRequest<'a>,
    text: &str,
) -> Result<String, Refusal<'a>>
    requires named { IsNamed table.now.model.names node }
    ensures ok { IfOk result (λ line. PrintsSaid names.now table.now.model.graph node (ask_of request.now text.now)
        (string_bytes line)) }
    ensures err { IfErr result (IsRefusalAt Encode names.now table.now.model.graph node
        (ask_of request.now text.now)) }
{
    let value = read(alloc, table.table().model().graph(), names, node, text)?;
    encode_value(alloc, table, node, request, &value)
}

/// A text behind a count.
fn counted(alloc: Global, taken: usize, text: &str) -> Result<String, AllocError>
    ensures { IfOk result (λ line. string_bytes line ≡ decimal taken ++ 32 ∷ text.now) }
{
    format!(in alloc; "{taken} {text}")
}

/// A line of how many octets were taken and the text of the value of their tape.
fn text_line(
    alloc: Global,
    graph: &Graph,
    names: &PartNames,
    node: u32,
    taken: usize,
    tape: &[u8],
) -> Result<String, AllocError>
    requires there { node < length graph.now }
    requires tape { IsTape graph.now node tape.now }
    ensures { IfOk result (λ line. IsTextOf names.now graph.now node taken tape.now (string_bytes line)) }
{
    let mut text = printed(alloc, graph, names, node, tape)?;
    text.push_str("\n")?;
    counted(alloc, taken, text.as_str())
}

/// How many octets encode a value, and its text, as a line.
fn decode<'a>(
    alloc: Global,
    table: &Accepted,
    names: &PartNames,
    node: u32,
    request: &ValueRequest<'a>,
    octets: &[u8],
) -> Result<String, Refusal<'a>>
    requires named { IsNamed table.now.model.names node }
    ensures ok { IfOk result (λ line. PrintsTextOf names.now table.now.model.graph node request.now.order
        request.now.pos octets.now (string_bytes line)) }
    ensures err { IfErr result (λ refusal. IsOfRun refusal
        (HasNoTape table.now.model.graph request.now.order node request.now.pos octets.now)) }
{
    let (tape, taken) = table.read(alloc, node, request.order, request.pos, octets)?;
    let graph = table.table().model().graph();
    Ok(text_line(alloc, graph, names, node, taken, tape.as_slice())?)
}

/// The answer for a node with a name.
fn answer<'a>(
    alloc: Global,
    table: &Accepted,
    names: &PartNames,
    node: u32,
    request: &ValueRequest<'a>,
    input: &str,
) -> Result<String, Refusal<'a>>
    requires named { IsNamed table.now.model.names node }
    ensures ok { IfOk result (λ line. Prints request.now.way names.now table.now.model.graph node
        (ask_of request.now input.now) (string_bytes line)) }
    ensures err { IfErr result (IsRefusalAt request.now.way names.now table.now.model.graph node
        (ask_of request.now input.now)) }
{
    match request.way {
        Way::Encode => encode(alloc, table, names, node, request, input),
        Way::Decode => {
            let octets = octets_of(alloc, input)?;
            decode(alloc, table, names, node, request, octets.as_slice())
        }
    }
}

/// The line that answers a request: the octets of the value that the text says, in lower case
/// hexadecimal, or how many of the octets were taken, and the text of the value that they encode.
/// Members, enumerators and labels go by the names that are handed in.
///
/// # Errors
/// The first in the order of the words: no such type, a text that says no value of it or digits
/// that are none, a refusal of the run. Want of memory can come before each but the first.
pub(crate) fn marshal_text<'a>(
    alloc: Global,
    table: &Accepted,
    names: &PartNames,
    request: &ValueRequest<'a>,
    input: &str,
) -> Result<String, Refusal<'a>>
    ensures line { IfOk result (λ line.
        IsTextLine table.now names.now (ask_of request.now input.now) (string_bytes line)) }
    ensures refused { IfErr result (IsTextRefusal table.now names.now (ask_of request.now input.now)) }
{
    let Some(node) = table.node_of(request.name) else {
        return Err(Refusal::NoType { name: request.name });
    };
    answer(alloc, table, names, node, request, input)
}
