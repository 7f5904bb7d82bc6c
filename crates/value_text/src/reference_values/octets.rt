//! Octets among values.

ghost use Rattle.std.specs.Prelude.{◌≡◌, IfOk};
ghost use Rattle.idl_value.specs.View.{tree_of, trees_of};
ghost use Rattle.giop_types.specs.Fields.{number_tree, octet_trees};
ghost use Rattle.value_text.specs.Octets.{octet_of as the_octet_of, octet_of_tree, octets_of as the_octets_of};

use idl_value::Value;
use std::alloc::{AllocError, Global};

/// The octet that a number is; what is none counts as 0.
pub fn octet_of(n: i128) -> u8
    ensures { result ≡ the_octet_of n }
{
    u8::try_from(n).unwrap_or(0)
}

fn octet_of_value(value: &Value) -> u8
    ensures { result ≡ octet_of_tree (tree_of value.now) }
{
    match value {
        Value::Integer(n) => octet_of(*n),
        _ => 0,
    }
}

/// The octets that values are; what is none counts as 0.
pub fn octets_of(alloc: Global, values: &[Value]) -> Result<Vec<u8>, AllocError>
    ensures { IfOk result (λ octets. octets.items ≡ the_octets_of (trees_of values.now)) }
{
    values.iter().map(octet_of_value).collect(alloc)
}

fn octet_value(octet: u8) -> Value
    ensures { tree_of result ≡ number_tree octet }
{
    Value::Integer(i128::from(octet))
}

/// A value for each octet.
pub(crate) fn octet_values(alloc: Global, octets: &[u8]) -> Result<Vec<Value>, AllocError>
    ensures { IfOk result (λ values. trees_of values.items ≡ octet_trees octets.now) }
{
    let mut values = Vec::with_capacity(alloc, octets.len())?;
    for octet in octets {
        values.push(octet_value(*octet))?;
    }
    Ok(values)
}
