//! Laws over the definitions. The functions do nothing: each contract is the law.

ghost use Rattle.std.specs.Prelude.{◌≡◌, ◌↔◌, ℕ, List, EachIndex, Some, slice_get};
ghost use Rattle.type_graph.specs.declared.node.Node.{Node};
ghost use Rattle.type_graph.specs.Value.{node_at};
ghost use Rattle.type_graph.specs.GraphRules.{held_by, IsShallow};
ghost use Rattle.type_paths.specs.declared.fault.PathFault.{PathFault};
ghost use Rattle.type_paths.specs.Sites.{Sites, Types, token_at};
ghost use Rattle.type_paths.specs.Paths.{ClosesCircle, GoesRoundBy, HoldsItself, IsPathFault};

/// Members go round exactly where they lead from a type back to it.
pub fn going_round_comes_back()
    ensures { (types : Types) (token : ℕ) → GoesRoundBy types token ↔ HoldsItself types token }
{}

/// Where there is a fault, not all paths are short.
pub fn fault_is_of_long_paths()
    ensures { (nodes : List Node) (first : ℕ) (sites : List Sites) (fault : PathFault)
        → IsPathFault nodes first sites fault → EachIndex nodes (IsShallow 64 nodes) → ⊥ }
{}

/// There is a member at the token that closes a circle. Of a node without sites that is token 0.
pub fn circle_closes_at_a_member()
    ensures { (types : Types) (token : ℕ) → ClosesCircle types token
        → ((node place part : ℕ) → slice_get (held_by (node_at types.nodes node)) place ≡ Some part
        → token_at types node place ≡ token → ⊥) → ⊥ }
{}

/// A list has one fault at most.
pub fn path_fault_is_one()
    ensures { (nodes : List Node) (first : ℕ) (sites : List Sites) (one other : PathFault)
        → IsPathFault nodes first sites one → IsPathFault nodes first sites other → one ≡ other }
{}
