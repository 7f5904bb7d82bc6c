//! Values of IDL types as readable text.
#![tactic(auto)]

ghost use Rattle.std.specs.Prelude.{◌≡◌, ◌<◌, ◌↔◌, length, IfOk, IfErr, OnOk, IsErrOf};
ghost use Rattle.std.specs.Bool.{OnFalse};
ghost use Rattle.std.specs.String.{string_bytes};
ghost use Rattle.json.specs.Lex.{tokens};
ghost use Rattle.json.specs.Print as json_text;
ghost use Rattle.value_text.specs.Escaped.{escaped};
ghost use Rattle.type_graph.specs.Value.{Tree, node_at, Fits};
ghost use Rattle.idl_value.specs.View.{tree_of};
ghost use Rattle.value_text.specs.Texts.{text_at};
ghost use Rattle.value_text.specs.Refusal.{wants_memory};
ghost use Rattle.value_text.specs.Says.{StandsFor};
ghost use Rattle.value_text.specs.inner.Refusing.{RefusesAs, AreSound};

mod cursor;
pub mod escaped_json;
pub mod fault;
pub mod laws;
mod lookup;
mod parts;
mod place;
mod printing;
mod reading;
pub mod reference_values;
mod scalars;
mod shape;
mod words;

use crate::cursor::{Cursor, Stop};
use crate::escaped_json::escape;
use crate::lookup::Lookup;
use crate::place::refused_at;
use crate::printing::write_value;
use crate::reading::{Sought, read_value};
pub use fault::{PrintFault, ReadFault, Refusal, TextPlace, Wanted};
use idl_value::{Value, conforms};
use json::{Reader, Scratch, Writer};
pub use parts::{packed, printed};
pub use shape::refers;
use std::alloc::Global;
use type_graph::Graph;
use type_model::part_names::PartNames;

/// How many sequences may stand one inside another.
const MAX_DEPTH: u32 = 64;

/// The text of a value of a node. Members, enumerators and labels are written by their names where
/// these are known, else by their places; control characters stand as escapes.
///
/// # Errors
/// `NotOfType` exactly where the value isn't one of the node, or want of memory.
pub fn print(
    alloc: Global,
    graph: &Graph,
    names: &PartNames,
    node: u32,
    value: &Value,
) -> Result<String, PrintFault>
    requires { node < length graph.now }
    ensures fits { OnOk result (Fits graph.now (node_at graph.now node) (tree_of value.now) 64) }
    ensures text { IfOk result (λ text. string_bytes text ≡ escaped (json_text.print (text_at names.now graph.now node
        (tree_of value.now)))) }
    ensures says { IfOk result (λ text. StandsFor names.now graph.now node (tree_of value.now) (tokens
        (string_bytes text))) }
    ensures not_of_type { IsErrOf result PrintFault.NotOfType ↔ ¬ Fits graph.now (node_at graph.now node)
        (tree_of value.now) 64 }
{
    if !conforms(graph, node, value) {
        return Err(PrintFault::NotOfType);
    }
    let mut out = Writer::new(Vec::new(alloc));
    write_value(&mut out, alloc, graph, names, node, value)?;
    match String::from_utf8(out.into_inner()) {
        Ok(text) => Ok(escape(alloc, text)?),
        Err(_) => Err(PrintFault::NotOfType),
    }
}

fn read_whole(
    cursor: &mut Cursor<'_>,
    alloc: Global,
    types: &Sought<'_>,
    node: u32,
) -> Result<Value, Stop>
    ensures read { IfOk result (λ value. StandsFor types.now.names.now types.now.graph.now node
        (tree_of value) cursor.old) }
    ensures refused { IfErr result (λ stop. RefusesAs stop (AreSound types.now.names.now types.now.graph.now
        → (value : Tree) → StandsFor types.now.names.now types.now.graph.now node value cursor.old → ⊥)) }
{
    let token = cursor.next();
    let value = read_value(cursor, token, alloc, types, node, MAX_DEPTH)?;
    cursor.end()?;
    Ok(value)
}

/// The same of the tokens of a reader.
fn read_tokens(
    alloc: Global,
    types: &Sought<'_>,
    node: u32,
    reader: Reader<'_>,
) -> Result<Value, Stop>
    ensures read { IfOk result (λ value. StandsFor types.now.names.now types.now.graph.now node
        (tree_of value) reader.entry) }
    ensures refused { IfErr result (λ stop. RefusesAs stop (AreSound types.now.names.now types.now.graph.now
        → (value : Tree) → StandsFor types.now.names.now types.now.graph.now node value reader.entry → ⊥)) }
{
    let mut cursor = Cursor::new(reader);
    read_whole(&mut cursor, alloc, types, node)
}

/// The same of a text. What is large stands in a function of its own here, and is let go of in one place.
fn read_text(alloc: Global, types: &Sought<'_>, node: u32, text: &str) -> Result<Value, Stop>
    ensures read { IfOk result (λ value. StandsFor types.now.names.now types.now.graph.now node
        (tree_of value) (tokens text.now)) }
    ensures refused { IfErr result (λ stop. RefusesAs stop (AreSound types.now.names.now types.now.graph.now
        → (value : Tree) → StandsFor types.now.names.now types.now.graph.now node value (tokens text.now) → ⊥)) }
{
    let mut scratch = Scratch::new(alloc);
    match Reader::new(text, &mut scratch) {
        Ok(reader) => read_tokens(alloc, types, node, reader),
        Err(_) => Err(Stop::NoMemory),
    }
}

/// The value of a node that a text says.
///
/// # Errors
/// `Refused` only where the text stands for no value of the node: what was wanted, and where. Or
/// want of memory.
pub fn read(
    alloc: Global,
    graph: &Graph,
    names: &PartNames,
    node: u32,
    text: &str,
) -> Result<Value, ReadFault>
    requires { node < length graph.now }
    ensures says { IfOk result (λ value. StandsFor names.now graph.now node (tree_of value) (tokens text.now)) }
    ensures refused { IfErr result (λ fault. OnFalse (wants_memory fault) ((value : Tree)
        → StandsFor names.now graph.now node value (tokens text.now) → ⊥)) }
{
    let lookup = Lookup::new(alloc, names, graph.nodes().len() as u32)?;
    let types = Sought {
        graph,
        names,
        lookup: &lookup,
    };
    match read_text(alloc, &types, node, text) {
        Ok(value) => Ok(value),
        Err(Stop::NoMemory) => Err(ReadFault::NoMemory),
        Err(Stop::Refused { wanted, at }) => Err(ReadFault::Refused(refused_at(text, wanted, at))),
    }
}
