//! The texts of numbers, strings, octets and characters.

ghost use Rattle.std.specs.Prelude.{◌≡◌, [], ◌∷◌, Some, None, IfSome, IfNone, IfOk, OnOk};
ghost use Rattle.std.specs.String.{string_bytes};
ghost use Rattle.hex.specs.Hex.{encode_lower};
ghost use Rattle.json.specs.Token.{string};
ghost use Rattle.idl_value.specs.View.{trees_of};
ghost use Rattle.value_text.specs.Octets.{octets_of as the_octets_of};
ghost use Rattle.value_text.specs.Printed.{reference_text as text_of_reference};
ghost use Rattle.value_text.specs.Pieces.{characters, digits};
ghost use Rattle.value_text.specs.Texts.{label_of, enumerator_of, number_text};
ghost use Rattle.value_text.specs.inner.Writing.{Adds};

use crate::reference_values::{octet_of, octets_of, reference_text};
use idl_value::Value;
use json::Writer;
use std::alloc::{AllocError, Global};
use type_graph::Node;
use type_model::part_names::NodeNames;

/// Each octet as a character.
fn characters(alloc: Global, octets: &[u8]) -> Result<String, AllocError>
    ensures { IfOk result (λ text. string_bytes text ≡ characters octets.now) }
{
    let mut text = String::with_capacity(alloc, octets.len())?;
    for octet in octets {
        text.push(char::from(*octet))?;
    }
    Ok(text)
}

/// Writes a number without a fraction, an exponent or a needless sign.
fn write_digits(out: &mut Writer, n: i128) -> Result<(), AllocError>
    ensures { OnOk result (Adds out.old out.new (digits n ∷ [])) }
{
    if let Ok(n) = u64::try_from(n) {
        return out.u64(n);
    }
    match i64::try_from(n) {
        Ok(n) => out.i64(n),
        Err(_) => write_wide(out, n),
    }
}

/// The same of any number.
fn write_wide(out: &mut Writer, n: i128) -> Result<(), AllocError>
    ensures { OnOk result (Adds out.old out.new (digits n ∷ [])) }
{
    let mut buffer = itoa::Buffer::new();
    out.number(buffer.format(n))
}

/// By its name, or by its number where it has none.
fn write_enumerator(out: &mut Writer, labels: &NodeNames, n: i128) -> Result<(), AllocError>
    ensures { OnOk result (Adds out.old out.new (enumerator_of (label_of labels.now n) n ∷ [])) }
{
    match label_of(labels, n) {
        Some(label) => out.string(label),
        None => write_digits(out, n),
    }
}

/// The name at the number's place.
fn label_of(labels: &NodeNames, n: i128) -> Option<&str>
    ensures some { IfSome result (λ label. label_of labels.now n ≡ Some label.now) }
    ensures none { IfNone result (label_of labels.now n ≡ None) }
{
    if n < 0 || n >= labels.len() as i128 {
        return None;
    }
    labels.get(n as usize)
}

/// Writes an integer, octet, character, boolean or enumerator.
pub fn write_number(
    out: &mut Writer,
    alloc: Global,
    labels: &NodeNames,
    node: &Node,
    n: i128,
) -> Result<(), AllocError>
    ensures { OnOk result (Adds out.old out.new (number_text labels.now node.now n ∷ [])) }
{
    match node {
        Node::Boolean => out.boolean(n != 0),
        Node::Char => write_text(out, alloc, &[octet_of(n)]),
        Node::Enum { .. } => write_enumerator(out, labels, n),
        _ => write_digits(out, n),
    }
}

/// Writes a string.
pub fn write_text(out: &mut Writer, alloc: Global, text: &[u8]) -> Result<(), AllocError>
    ensures { OnOk result (Adds out.old out.new (string (characters text.now) ∷ [])) }
{
    let text = characters(alloc, text)?;
    out.string(text.as_str())
}

/// Writes elements that are characters, together.
pub fn write_chars(out: &mut Writer, alloc: Global, values: &[Value]) -> Result<(), AllocError>
    ensures { OnOk result (Adds out.old out.new (string (characters (the_octets_of (trees_of values.now))) ∷ [])) }
{
    let octets = octets_of(alloc, values)?;
    write_text(out, alloc, octets.as_slice())
}

/// Writes elements that are octets by the digits of their hexadecimal numbers.
pub fn write_octets(out: &mut Writer, alloc: Global, values: &[Value]) -> Result<(), AllocError>
    ensures { OnOk result (Adds out.old out.new (string (encode_lower (the_octets_of (trees_of values.now))) ∷ [])) }
{
    let octets = octets_of(alloc, values)?;
    let text = hex::encode(alloc, octets.as_slice())?;
    out.string(text.as_str())
}

/// Writes the members of an object reference by its string.
pub fn write_reference(out: &mut Writer, alloc: Global, values: &[Value]) -> Result<(), AllocError>
    ensures { OnOk result (Adds out.old out.new (string (text_of_reference (trees_of values.now)) ∷ [])) }
{
    let text = reference_text(alloc, values)?;
    out.string(text.as_str())
}
