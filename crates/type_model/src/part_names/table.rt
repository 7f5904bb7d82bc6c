//! The names of the parts of all nodes.

ghost use Rattle.std.specs.Prelude.{◌≡◌};
ghost use Rattle.type_model.specs.PartNamesNames.{names_at};

use crate::part_names::node::NodeNames;
use std::alloc::Global;
use std::marker::Model;

/// The names of the parts of nodes, by the numbers of the nodes.
#[derive(Drop)]
pub struct PartNames {
    nodes: Vec<NodeNames>,
    none: NodeNames,
}

impl Model for PartNames {
    ghost use Rattle.std.specs.Prelude.{◌≡◌, ℕ, List, []};

    ghost Value = { List (List (List ℕ)) };

    ghost view = { λ p. p.nodes.items };

    ghost invariant = { λ p. p.none ≡ [] };
}

impl PartNames {
    /// The names of the parts of each node, in order of the nodes. Takes no memory.
    pub fn new(alloc: Global, nodes: Vec<NodeNames>) -> PartNames
        ensures { result ≡ nodes.items }
    {
        PartNames {
            nodes,
            none: NodeNames::none(alloc),
        }
    }

    /// Those of a node: none for one that isn't there.
    pub fn of(&self, node: u32) -> &NodeNames
        ensures { result.now ≡ names_at self.now node }
    {
        self.nodes.get(node as usize).unwrap_or(&self.none)
    }
}
