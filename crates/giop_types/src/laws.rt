//! Laws of what octets hold, over the definitions alone.

ghost use Rattle.std.specs.Prelude.{◌≡◌, ◌++◌, ℕ, List};
ghost use Rattle.type_graph.specs.declared.width.Order.{Order};
ghost use Rattle.type_graph.specs.Words.{Format, writing};
ghost use Rattle.type_graph.specs.Value.{Tree, node_at, Fits, tape_of};
ghost use Rattle.type_graph.specs.Encoding.{Means};
ghost use Rattle.giop_types.specs.GiopNodes.{giop_nodes};
ghost use Rattle.giop_types.specs.Fields.{Holds};

/// Octets hold a value exactly where they mean its tape.
pub fn held_is_meant()
    ensures means { (format : Format) (node p : ℕ) (value : Tree) (octets : List ℕ) → Holds format node p value octets
        → Means giop_nodes format 64 node p (tape_of giop_nodes (node_at giop_nodes node) value) octets }
    ensures holds { (format : Format) (node p : ℕ) (value : Tree) (octets : List ℕ)
        → Fits giop_nodes (node_at giop_nodes node) value 64
        → Means giop_nodes format 64 node p (tape_of giop_nodes (node_at giop_nodes node) value) octets
        → Holds format node p value octets }
{}

/// One front of a list of octets holds a value of a node, and one value.
pub fn front_holds_one_value()
    ensures { (format : Format) (node p : ℕ) (value1 value2 : Tree) (octets1 octets2 rest1 rest2 : List ℕ)
        → Holds format node p value1 octets1 → Holds format node p value2 octets2
        → octets1 ++ rest1 ≡ octets2 ++ rest2 → (value1 ≡ value2) × (octets1 ≡ octets2) × (rest1 ≡ rest2) }
{}

/// A value is written in one way at a position.
pub fn value_is_written_once()
    ensures { (order : Order) (node p : ℕ) (value : Tree) (octets1 octets2 : List ℕ)
        → Holds (writing order) node p value octets1 → Holds (writing order) node p value octets2 → octets1 ≡ octets2 }
{}
