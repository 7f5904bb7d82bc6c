//! The places of parts by their names. They are sought by the order of their octets, so that no
//! choice of names makes that slow.

ghost use Rattle.std.specs.Prelude.{◌≡◌, ◌<◌, ℕ, Some, IfSome, IfNone, OnOk, slice_get};
ghost use Rattle.type_model.specs.PartNamesNames.{AreApart, names_at};

use std::alloc::{AllocError, Global};
use type_graph::Items;
use type_model::part_names::{NodeNames, PartNames};
use type_model::{Name, NameTable};

/// A table for each node.
#[derive(Drop)]
pub struct Lookup {
    tables: Vec<NameTable>,
}

fn pairs_of(alloc: Global, labels: &NodeNames) -> Result<Vec<(Name, u32)>, AllocError> {
    let mut pairs = Vec::new(alloc);
    for place in 0..labels.len() {
        if let (Some(label), Ok(number)) = (labels.get(place), u32::try_from(place)) {
            pairs.push((Name::copied(alloc, label)?, number))?;
        }
    }
    Ok(pairs)
}

/// No two names are equal, so nothing but memory can be wanting.
fn table_of(alloc: Global, labels: &NodeNames) -> Result<NameTable, AllocError>
    ensures apart { OnOk result (AreApart labels.now) }
{
    let pairs = pairs_of(alloc, labels)?;
    match NameTable::new(alloc, Items::new(pairs), labels.len()) {
        Ok(table) => Ok(table),
        Err(_) => Err(AllocError),
    }
}

/// The place of a name, sought from the first on.
fn sought(labels: &NodeNames, label: &str) -> Option<usize>
    ensures some { IfSome result (λ place. slice_get labels.now place ≡ Some label.now) }
    ensures none { IfNone result ((place : ℕ) → slice_get labels.now place ≡ Some label.now → ⊥) }
{
    for place in 0..labels.len() {
        match labels.get(place) {
            Some(name) if name == label => return Some(place),
            _ => {}
        }
    }
    None
}

impl Lookup {
    /// Those of the nodes below the count, whose names are apart.
    pub fn new(alloc: Global, names: &PartNames, count: u32) -> Result<Lookup, AllocError>
        ensures apart { OnOk result ((number : ℕ) → number < count → AreApart (names_at names.now number)) }
    {
        let mut tables = Vec::new(alloc);
        for number in 0..count {
            tables.push(table_of(alloc, names.of(number))?)?;
        }
        Ok(Lookup { tables })
    }

    /// The place at which the node's table has the name, if these are the node's names.
    fn found(&self, labels: &NodeNames, number: u32, label: &str) -> Option<usize>
        ensures { IfSome result (λ place. slice_get labels.now place ≡ Some label.now) }
    {
        let place = self.tables.get(number as usize)?.node_of(label)? as usize;
        match labels.get(place) {
            Some(name) if name == label => Some(place),
            _ => None,
        }
    }

    /// The place of the node's part of this name, where these are the node's names. A name that the
    /// table hasn't is sought among all, once a text: without it the text is refused.
    pub fn place_of(&self, labels: &NodeNames, number: u32, label: &str) -> Option<usize>
        ensures some { IfSome result (λ place. slice_get labels.now place ≡ Some label.now) }
        ensures none { IfNone result ((place : ℕ) → slice_get labels.now place ≡ Some label.now → ⊥) }
    {
        match self.found(labels, number, label) {
            Some(place) => Some(place),
            None => sought(labels, label),
        }
    }
}
