//! Laws over the definitions. The functions do nothing: each contract is the law.

ghost use Rattle.std.specs.Prelude.{◌≡◌, ℕ, List};
ghost use Rattle.type_graph.specs.declared.node.Node.{Node};
ghost use Rattle.type_graph.specs.GraphRules.{IsGraph};
ghost use Rattle.type_graph.specs.Value.{Tree, node_at, Fits, tape_of};

use type_graph::laws::tape_has_one_value;

/// Two values of a node that have one tape are equal.
pub fn values_of_one_tape_are_equal()
    ensures { (graph : List Node) → IsGraph graph → (number depth : ℕ) (value other : Tree)
        → Fits graph (node_at graph number) value depth → Fits graph (node_at graph number) other depth
        → tape_of graph (node_at graph number) value ≡ tape_of graph (node_at graph number) other → value ≡ other }
{
    tape_has_one_value()
}
