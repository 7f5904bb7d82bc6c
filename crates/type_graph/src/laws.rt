//! Laws over the definitions. The functions do nothing: each contract is the law.

ghost use Rattle.std.specs.Prelude.{◌≡◌, ℕ, ◌+◌, ◌%◌, ◌≤◌, List, ◌++◌};
ghost use Rattle.type_graph.specs.declared.width.Width.{Width};
ghost use Rattle.type_graph.specs.declared.width.Order.{Order};
ghost use Rattle.type_graph.specs.declared.node.Node.{Node};
ghost use Rattle.type_graph.specs.Words.{octets_in, pad, Format, reading, writing};
ghost use Rattle.type_graph.specs.Relation.{Then, Many};
ghost use Rattle.type_graph.specs.Comparison.{Anywhere, Same};
ghost use Rattle.type_graph.specs.Atoms.{Gap, AnyWord};
ghost use Rattle.type_graph.specs.Value.{Tree, node_at, Fits, tape_of};
ghost use Rattle.type_graph.specs.Encoding.{Means};
ghost use Rattle.type_graph.specs.GraphRules.{IsGraph, held_by};
ghost use Rattle.type_graph.specs.Walks.{lead_by, lead_of, above, height_of};
ghost use Rattle.type_graph.specs.Leaves.{leaves_by, leaves_of, IsUniform};
ghost use Rattle.type_graph.specs.Zero.{zero_by, zero_of};

/// The gap before a number leads to a multiple of its size, and none that is shorter does.
pub fn gap_is_least()
    ensures reaches { (p : ℕ) (w : Width) → (p + pad p (octets_in w)) % octets_in w ≡ 0 }
    ensures least { (p q : ℕ) (w : Width) → (p + q) % octets_in w ≡ 0 → pad p (octets_in w) ≤ q }
{}

/// What octets mean at a position, they mean at every position that is the same modulo 8.
pub fn meaning_has_period_eight()
    ensures { (graph : List Node) (format : Format) (depth number p q : ℕ) (tape octets : List ℕ) → q % 8 ≡ p % 8
        → Means graph format depth number p tape octets → Means graph format depth number q tape octets }
{}

/// What is written can be read: octets that mean a value with zeros in the gaps mean it with
/// whatever a reader may find there.
pub fn written_is_read()
    ensures { (graph : List Node) (order : Order) (depth number p : ℕ) (tape octets : List ℕ)
        → Means graph (writing order) depth number p tape octets
        → Means graph (reading order) depth number p tape octets }
{}

/// A tape is that of one value of its type.
pub fn tape_has_one_value()
    ensures { (graph : List Node) → IsGraph graph → (number depth : ℕ) (value other : Tree)
        → Fits graph (node_at graph number) value depth → Fits graph (node_at graph number) other depth
        → tape_of graph (node_at graph number) value ≡ tape_of graph (node_at graph number) other → value ≡ other }
{}

/// One front of a list of octets has a meaning, and one tape.
pub fn front_has_one_tape()
    ensures { (graph : List Node) → IsGraph graph
        → (format : Format) (depth number p : ℕ) (tape1 tape2 octets1 octets2 rest1 rest2 : List ℕ)
        → Means graph format depth number p tape1 octets1 → Means graph format depth number p tape2 octets2
        → octets1 ++ rest1 ≡ octets2 ++ rest2 → (tape1 ≡ tape2) × (octets1 ≡ octets2) }
{}

/// The height of a node, how many steps the longest path downwards from it has, is one more than
/// the greatest of what it holds, and 0 where it holds nothing.
pub fn height_is_above_parts()
    ensures { (graph : List Node) → IsGraph graph → (number : ℕ)
        → height_of graph number ≡ above (height_of graph) (held_by (node_at graph number)) }
{}

/// The lead of a node is that of its element, its first member or its discriminator, 4 for an
/// enumeration, a string or a sequence, and else the width of its numbers.
pub fn lead_is_of_first_part()
    ensures { (graph : List Node) → IsGraph graph → (number : ℕ)
        → lead_of graph number ≡ lead_by (lead_of graph) graph (node_at graph number) }
{}

/// The leaves of an array are those of its elements, those of a structure or a frame those of its
/// members; any other node is its own leaf.
pub fn leaves_are_of_parts()
    ensures { (graph : List Node) → IsGraph graph → (number : ℕ)
        → leaves_of graph number ≡ leaves_by (leaves_of graph) (node_at graph number) }
{}

/// A uniform node is the gap to its width, and its words one behind the other.
pub fn uniform_is_words()
    ensures { (graph : List Node) → IsGraph graph → (format : Format) (depth : ℕ) (w : Width) (n number : ℕ)
        → IsUniform graph w n number → Same Anywhere (Means graph format depth number)
        (Then (Gap format w) (Many n (AnyWord format w))) }
{}

/// The value of zeros is made of those of the parts.
pub fn zero_is_of_parts()
    ensures { (graph : List Node) → IsGraph graph → (number : ℕ)
        → zero_of graph number ≡ zero_by (zero_of graph) (node_at graph number) }
{}

/// The value of zeros is one of the node.
pub fn zero_fits()
    ensures { (graph : List Node) → IsGraph graph → (number depth : ℕ) → 1 ≤ depth
        → Fits graph (node_at graph number) (zero_of graph number) depth }
{}
