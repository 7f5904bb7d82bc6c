//! Which structures are object references.

ghost use Rattle.std.specs.Prelude.{◌≡◌};
ghost use Rattle.value_text.specs.Texts.{refers as node_refers};

use crate::reference_values::is_reference;
use type_graph::Graph;
use type_model::part_names::NodeNames;

/// Whether members of these names, if any, are those of an object reference.
pub fn refers(graph: &Graph, labels: &NodeNames, members: &[u32]) -> bool
    ensures { result ≡ node_refers graph.now labels.now members.now }
{
    labels.is_empty() && is_reference(graph, members)
}
