//! Values as texts, by what is loaded, from a buffer of the caller's to another.

ghost use Rattle.std.specs.Prelude.{◌≡◌, ◌≤◌, drop, length, take, IfErr, IfOk, OnErr};
ghost use Rattle.std.specs.String.{string_bytes};
ghost use Rattle.type_graph.specs.Value.{Fits, node_at, tape_of};
ghost use Rattle.type_graph.specs.Words.{writing};
ghost use Rattle.type_graph.specs.Encoding.{Means};
ghost use Rattle.type_model.specs.Names.{IsNamed};
ghost use Rattle.idl_value.specs.View.{tree_of};
ghost use Rattle.idlc_c.specs.Answers.{HasNoOctets, HasNoTape, RefusesValue, TellsLength};
ghost use Rattle.idlc_c.specs.TextAnswers.{HasNoOctetsOfText, HasOctetsOfText, HasTextOfOctets, IsOctetsOfText, IsTextOfOctets, RefusesSaid, SaysNone};
ghost use Rattle.idlc_c.specs.inner.Prints.{RefusesRun};

use crate::held::Loaded;
use crate::octets::put;
use crate::refusal::Refusal;
use idl_value::Value;
use position_checker::Accepted;
use std::alloc::Global;
use std::str;
use type_graph::Order;
use value_text::{ReadFault, Refusal as Unsaid, TextPlace, Wanted, packed, printed, read};

/// The refusal of what isn't UTF-8.
fn not_utf8() -> Unsaid {
    Unsaid {
        wanted: Wanted::Json,
        place: TextPlace { line: 0, column: 0 },
    }
}

/// The octets of a value.
fn written(
    alloc: Global,
    table: &Accepted,
    node: u32,
    order: Order,
    pos: u64,
    value: &Value,
) -> Result<Vec<u8>, Refusal>
    requires named { IsNamed table.now.model.names node }
    requires fits { Fits table.now.model.graph (node_at table.now.model.graph node) (tree_of value.now) 64 }
    ensures done { IfOk result (λ octets. Means table.now.model.graph (writing order) 64 node pos
        (tape_of table.now.model.graph (node_at table.now.model.graph node) (tree_of value.now)) octets.items) }
    ensures refused { IfErr result (RefusesRun (HasNoOctets node order pos
        (tape_of table.now.model.graph (node_at table.now.model.graph node) (tree_of value.now)) table.now)) }
{
    let Ok(tape) = packed(alloc, table.table().model().graph(), node, value) else {
        return Err(Refusal::NoMemory);
    };
    match table.write(alloc, node, order, pos, tape.as_slice()) {
        Ok(octets) => Ok(octets),
        Err(fault) => Err(Refusal::NoValue(fault)),
    }
}

/// The octets of the value that a text says.
fn octets_said(
    alloc: Global,
    loaded: &Loaded,
    node: u32,
    order: Order,
    pos: u64,
    text: &str,
) -> Result<Vec<u8>, Refusal>
    requires named { IsNamed loaded.now.table.model.names node }
    ensures done { IfOk result (λ octets.
        IsOctetsOfText loaded.now.names node order pos text.now octets.items loaded.now.table) }
    ensures refused { IfErr result (RefusesSaid ⊥ (λ _. ⊥)
        (HasNoOctetsOfText loaded.now.names node order pos text.now loaded.now.table)
        (SaysNone loaded.now.names node text.now loaded.now.table)) }
{
    let graph = loaded.table.table().model().graph();
    match read(alloc, graph, &loaded.names, node, text) {
        Ok(value) => written(alloc, &loaded.table, node, order, pos, &value),
        Err(ReadFault::NoMemory) => Err(Refusal::NoMemory),
        Err(ReadFault::Refused(unsaid)) => Err(Refusal::NoText(unsaid)),
    }
}

/// Writes the octets of the value that a text says to the buffer, and tells how many they are.
pub(crate) fn encode_text(
    alloc: Global,
    loaded: &Loaded,
    node: u32,
    order: Order,
    pos: u64,
    text: &[u8],
    out: &mut [u8],
) -> Result<usize, Refusal>
    ensures done { IfOk result (λ len.
        IsOctetsOfText loaded.now.names node order pos text.now (take len out.new) loaded.now.table) }
    ensures within { IfOk result (λ len. len ≤ length out.old) }
    ensures behind { IfOk result (λ len. drop len out.new ≡ drop len out.old) }
    ensures refused { IfErr result (RefusesSaid (IsNamed loaded.now.table.model.names node → ⊥)
        (TellsLength (λ len. HasOctetsOfText loaded.now.names node order pos text.now len loaded.now.table)
        (length out.old))
        (HasNoOctetsOfText loaded.now.names node order pos text.now loaded.now.table)
        (SaysNone loaded.now.names node text.now loaded.now.table)) }
    ensures kept { OnErr result (out.new ≡ out.old) }
{
    if !loaded.table.is_named(node) {
        return Err(Refusal::NotNamed);
    }
    let Ok(text) = str::from_utf8(text) else {
        return Err(Refusal::NoText(not_utf8()));
    };
    match octets_said(alloc, loaded, node, order, pos, text) {
        Ok(octets) => put(octets.as_slice(), out),
        Err(refusal) => Err(refusal),
    }
}

/// The text of the value that a front of the octets encodes, and how many octets that front has.
fn text_of(
    alloc: Global,
    loaded: &Loaded,
    node: u32,
    order: Order,
    pos: u64,
    octets: &[u8],
) -> Result<(String, usize), Refusal>
    requires named { IsNamed loaded.now.table.model.names node }
    ensures done { IfOk result (λ told.
        IsTextOfOctets loaded.now.names node order pos octets.now told.1 (string_bytes told.0) loaded.now.table) }
    ensures refused { IfErr result (RefusesValue ⊥ (λ _. ⊥) (HasNoTape node order pos octets.now loaded.now.table)) }
{
    let (tape, front) = match loaded.table.read(alloc, node, order, pos, octets) {
        Ok(found) => found,
        Err(fault) => return Err(Refusal::NoValue(fault)),
    };
    let graph = loaded.table.table().model().graph();
    match printed(alloc, graph, &loaded.names, node, tape.as_slice()) {
        Ok(text) => Ok((text, front)),
        Err(_) => Err(Refusal::NoMemory),
    }
}

/// Writes the text of the value that a front of the octets encodes to the buffer, and tells how
/// long it is, and how many octets that front has.
pub(crate) fn decode_text(
    alloc: Global,
    loaded: &Loaded,
    node: u32,
    order: Order,
    pos: u64,
    octets: &[u8],
    taken: &mut usize,
    out: &mut [u8],
) -> Result<usize, Refusal>
    ensures done { IfOk result (λ len.
        IsTextOfOctets loaded.now.names node order pos octets.now taken.new (take len out.new) loaded.now.table) }
    ensures within { IfOk result (λ len. len ≤ length out.old) }
    ensures behind { IfOk result (λ len. drop len out.new ≡ drop len out.old) }
    ensures refused { IfErr result (RefusesValue (IsNamed loaded.now.table.model.names node → ⊥)
        (TellsLength (λ len. HasTextOfOctets loaded.now.names node order pos octets.now len loaded.now.table)
        (length out.old))
        (HasNoTape node order pos octets.now loaded.now.table)) }
    ensures kept { OnErr result (out.new ≡ out.old) }
    ensures not_taken { OnErr result (taken.new ≡ taken.old) }
{
    if !loaded.table.is_named(node) {
        return Err(Refusal::NotNamed);
    }
    match text_of(alloc, loaded, node, order, pos, octets) {
        Ok((text, front)) => {
            let len = put(text.as_bytes(), out)?;
            *taken = front;
            Ok(len)
        }
        Err(refusal) => Err(refusal),
    }
}
