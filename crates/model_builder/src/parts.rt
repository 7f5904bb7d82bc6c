//! The names of the parts of nodes.

ghost use Rattle.std.specs.Prelude.{◌≡◌, All, IfOk};
ghost use Rattle.type_model.specs.PartNamesNames.{AreApart};

use std::alloc::{AllocError, Global};
use type_graph::Items;
use type_model::Name;
use type_model::part_names::{NodeNames, PartNames};

/// The names of the parts of each node, which are apart.
///
/// # Errors
/// Want of memory.
pub(crate) fn parts_of(alloc: Global, names: Vec<Items<Name>>) -> Result<PartNames, AllocError>
    requires { All AreApart names.items }
    ensures { IfOk result (λ parts. parts ≡ names.items) }
{
    let mut nodes = Vec::new(alloc);
    for own in names {
        nodes.push(NodeNames::new(own.into_vec()))?;
    }
    Ok(PartNames::new(alloc, nodes))
}
