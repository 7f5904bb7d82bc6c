//! Object references read from texts.

ghost use Rattle.std.specs.Prelude.{◌≡◌, IfOk, IfSome, IfNone, IsTrue, ◌↔◌};
ghost use Rattle.type_graph.specs.Value.{Tree};
ghost use Rattle.giop_types.specs.Fields.{tagged_tree, tagged_trees};
ghost use Rattle.idl_value.specs.View.{tree_of, trees_of};
ghost use Rattle.reference_texts.specs.References.{owned_pairs, reference_of, reference_tree};
ghost use Rattle.value_text.specs.Stringified.{Stringifies, FitsObject};
ghost use Rattle.value_text.specs.inner.Room.{HasRoom};

use crate::reference_values::octets::octet_values;
use giop_types::GiopTypes;
use idl_value::Value;
use reference_texts::{Ior, ReferenceFault, ior_from_text};
use std::alloc::{AllocError, Global};

/// Whether so many sequences one inside another are enough for these profiles.
fn has_room(profiles: &[(u32, Vec<u8>)], depth: u32) -> bool
    ensures { IsTrue result ↔ HasRoom (owned_pairs profiles.now) depth }
{
    if profiles.is_empty() {
        depth >= 1
    } else {
        depth >= 2
    }
}

fn profile_value(alloc: Global, tag: u32, octets: &[u8]) -> Result<Value, AllocError>
    ensures { IfOk result (λ value. tree_of value ≡ tagged_tree (tag, octets.now)) }
{
    let octets = octet_values(alloc, octets)?;
    let parts = vec![in alloc; Value::Integer(i128::from(tag)), Value::Items(octets)]?;
    Ok(Value::Items(parts))
}

fn profile_values(alloc: Global, profiles: &[(u32, Vec<u8>)]) -> Result<Vec<Value>, AllocError>
    ensures { IfOk result (λ values. trees_of values.items ≡ tagged_trees (owned_pairs profiles.now)) }
{
    let mut values = Vec::with_capacity(alloc, profiles.len())?;
    for (tag, octets) in profiles {
        values.push(profile_value(alloc, *tag, octets.as_slice())?)?;
    }
    Ok(values)
}

fn value_of(alloc: Global, ior: &Ior) -> Result<Value, AllocError>
    ensures { IfOk result (λ value. tree_of value ≡ reference_tree (reference_of ior.now)) }
{
    let id = Vec::from_slice(alloc, ior.type_id.as_slice())?;
    let profiles = profile_values(alloc, ior.profiles.as_slice())?;
    let members = vec![in alloc; Value::Text(id), Value::Items(profiles)]?;
    Ok(Value::Items(members))
}

/// The object reference that a text spells, if there is one, and so many sequences one inside
/// another are enough for it.
pub fn reference_value(
    types: &GiopTypes,
    alloc: Global,
    text: &str,
    depth: u32,
) -> Result<Option<Value>, AllocError>
    ensures some { IfOk result (λ found. IfSome found (λ value. Stringifies text.now (tree_of value))) }
    ensures fits { IfOk result (λ found. IfSome found (λ value. FitsObject (tree_of value) depth)) }
    ensures none { IfOk result (λ found. IfNone found ((value : Tree) → Stringifies text.now value
        → FitsObject value depth → ⊥)) }
{
    match ior_from_text(types, alloc, text) {
        Ok(ior) => {
            if !has_room(ior.profiles.as_slice(), depth) {
                return Ok(None);
            }
            Ok(Some(value_of(alloc, &ior)?))
        }
        Err(ReferenceFault::BadIor) => Ok(None),
        Err(ReferenceFault::NoMemory) => Err(AllocError),
    }
}
