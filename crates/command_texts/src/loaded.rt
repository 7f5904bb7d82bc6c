//! Tables with the names of their parts.

ghost use Rattle.std.specs.Prelude.{◌≡◌, []};

use position_checker::Accepted;
use std::alloc::Global;
use type_model::part_names::PartNames;

/// A table, and the names of the parts of its types, where these are known.
#[derive(Drop)]
pub struct Loaded {
    pub table: Accepted,
    pub names: PartNames,
}

impl Loaded {
    /// A table whose parts have no names.
    pub fn nameless(alloc: Global, table: Accepted) -> Loaded
        ensures table { result.table ≡ table }
        ensures names { result.names ≡ [] }
    {
        Loaded {
            table,
            names: PartNames::new(alloc, Vec::new(alloc)),
        }
    }
}
