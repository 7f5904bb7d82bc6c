//! The texts of object references.

ghost use Rattle.std.specs.Prelude.{◌≡◌, pos, OnOk, IfOk};
ghost use Rattle.std.specs.String.{string_bytes};
ghost use Rattle.type_graph.specs.Value.{Items, Bytes};
ghost use Rattle.reference_texts.specs.Texts.{spelled as the_spelled};
ghost use Rattle.idl_value.specs.View.{tree_of, trees_of};
ghost use Rattle.value_text.specs.Printed.{long_of, long_of_tree, with_long, with_text, with_octets, with_profile, with_each, with_profiles, with_members, encapsulation as the_encapsulation, reference_text as the_text};

use crate::reference_values::octets::octets_of;
use giop_types::push_u32;
use idl_value::Value;
use std::alloc::{AllocError, Global};

/// The word before the digits.
const WORD: &str = "IOR:";

/// The flag of big order.
const BIG: u8 = 0;

fn long_of_count(n: usize) -> u32
    ensures { result ≡ long_of (pos n) }
{
    u32::try_from(n).unwrap_or(0)
}

fn long_of_number(n: i128) -> u32
    ensures { result ≡ long_of n }
{
    u32::try_from(n).unwrap_or(0)
}

fn long_of_value(value: &Value) -> u32
    ensures { result ≡ long_of_tree (tree_of value.now) }
{
    match value {
        Value::Integer(n) => long_of_number(*n),
        _ => 0,
    }
}

/// Puts an unsigned long behind octets, at a multiple of four.
fn push_long(out: &mut Vec<u8>, n: u32) -> Result<(), AllocError>
    ensures { OnOk result (out.new.items ≡ with_long out.old.items n) }
{
    let gap = (4 - out.len() % 4) % 4;
    for _ in 0..gap {
        out.push(0)?;
    }
    push_u32(out, n)
}

fn push_text(out: &mut Vec<u8>, text: &[u8]) -> Result<(), AllocError>
    ensures { OnOk result (out.new.items ≡ with_text out.old.items (Bytes text.now)) }
{
    push_long(out, long_of_count(text.len() + 1))?;
    out.extend_from_slice(text)?;
    out.push(0)?;
    Ok(())
}

fn push_id(out: &mut Vec<u8>, value: &Value) -> Result<(), AllocError>
    ensures { OnOk result (out.new.items ≡ with_text out.old.items (tree_of value.now)) }
{
    match value {
        Value::Text(text) => push_text(out, text),
        _ => Ok(()),
    }
}

fn push_octets(out: &mut Vec<u8>, alloc: Global, values: &[Value]) -> Result<(), AllocError>
    ensures { OnOk result (out.new.items ≡ with_octets out.old.items (Items (trees_of values.now))) }
{
    push_long(out, long_of_count(values.len()))?;
    let octets = octets_of(alloc, values)?;
    out.extend_from_slice(octets.as_slice())?;
    Ok(())
}

fn push_data(out: &mut Vec<u8>, alloc: Global, value: &Value) -> Result<(), AllocError>
    ensures { OnOk result (out.new.items ≡ with_octets out.old.items (tree_of value.now)) }
{
    match value {
        Value::Items(values) => push_octets(out, alloc, values),
        _ => Ok(()),
    }
}

/// A tag and its octets.
fn push_tagged(out: &mut Vec<u8>, alloc: Global, parts: &[Value]) -> Result<(), AllocError>
    ensures { OnOk result (out.new.items ≡ with_profile out.old.items (Items (trees_of parts.now))) }
{
    match parts {
        [tag, octets] => {
            push_long(out, long_of_value(tag))?;
            push_data(out, alloc, octets)
        }
        _ => Ok(()),
    }
}

fn push_profile(out: &mut Vec<u8>, alloc: Global, value: &Value) -> Result<(), AllocError>
    ensures { OnOk result (out.new.items ≡ with_profile out.old.items (tree_of value.now)) }
{
    match value {
        Value::Items(parts) => push_tagged(out, alloc, parts),
        _ => Ok(()),
    }
}

fn push_each(out: &mut Vec<u8>, alloc: Global, profiles: &[Value]) -> Result<(), AllocError>
    ensures { OnOk result (out.new.items ≡ with_each out.old.items (trees_of profiles.now)) }
{
    for profile in profiles {
        push_profile(out, alloc, profile)?;
    }
    Ok(())
}

/// Profiles behind their count.
fn push_list(out: &mut Vec<u8>, alloc: Global, profiles: &[Value]) -> Result<(), AllocError>
    ensures { OnOk result (out.new.items ≡ with_profiles out.old.items (Items (trees_of profiles.now))) }
{
    push_long(out, long_of_count(profiles.len()))?;
    push_each(out, alloc, profiles)
}

fn push_profiles(out: &mut Vec<u8>, alloc: Global, value: &Value) -> Result<(), AllocError>
    ensures { OnOk result (out.new.items ≡ with_profiles out.old.items (tree_of value.now)) }
{
    match value {
        Value::Items(profiles) => push_list(out, alloc, profiles),
        _ => Ok(()),
    }
}

/// The id and the profiles.
fn push_members(out: &mut Vec<u8>, alloc: Global, members: &[Value]) -> Result<(), AllocError>
    ensures { OnOk result (out.new.items ≡ with_members out.old.items (trees_of members.now)) }
{
    match members {
        [id, profiles] => {
            push_id(out, id)?;
            push_profiles(out, alloc, profiles)
        }
        _ => Ok(()),
    }
}

/// The encapsulation of a reference, behind the flag of big order.
fn encapsulation(alloc: Global, members: &[Value]) -> Result<Vec<u8>, AllocError>
    ensures { IfOk result (λ octets. octets.items ≡ the_encapsulation (trees_of members.now)) }
{
    let mut octets = Vec::new(alloc);
    octets.push(BIG)?;
    push_members(&mut octets, alloc, members)?;
    Ok(octets)
}

/// The word, and the digits of octets.
fn spelled(alloc: Global, octets: &[u8]) -> Result<String, AllocError>
    ensures { IfOk result (λ text. string_bytes text ≡ the_spelled octets.now) }
{
    let digits = hex::encode(alloc, octets)?;
    let mut text = String::from_str(alloc, WORD)?;
    text.push_str(digits.as_str())?;
    Ok(text)
}

/// The text of an object reference with these members: `IOR:` and the digits of its encapsulation.
pub fn reference_text(alloc: Global, members: &[Value]) -> Result<String, AllocError>
    ensures { IfOk result (λ text. string_bytes text ≡ the_text (trees_of members.now)) }
{
    let octets = encapsulation(alloc, members)?;
    spelled(alloc, octets.as_slice())
}
