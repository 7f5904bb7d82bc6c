//! Laws over the definitions. The functions do nothing: each contract is the law.

ghost use Rattle.std.specs.Prelude.{◌≡◌, ◌↔◌, true, ℕ, List};
ghost use Rattle.type_graph.specs.declared.node.Node.{Node};
ghost use Rattle.type_graph.specs.Value.{Tree, Items, Trees, FitAll};
ghost use Rattle.reference_texts.specs.References.{Reference, reference_tree};
ghost use Rattle.reference_texts.specs.Texts.{IsTextOf};
ghost use Rattle.value_text.specs.Shape.{is_reference};
ghost use Rattle.value_text.specs.Printed.{reference_text};
ghost use Rattle.value_text.specs.Stringified.{Stringifies, FitsObject};

/// What members of the shape of a reference are, they are as those of a reference.
pub fn a_shape_is_a_reference()
    ensures { (graph : List Node) (members : List ℕ) → is_reference graph members ≡ true
        → (values : Trees) (depth : ℕ) → FitAll graph members values depth ↔ FitsObject (Items values) depth }
{}

/// A text spells at most one value.
pub fn a_text_spells_one_value()
    ensures { (text : List ℕ) (value other : Tree) → Stringifies text value → Stringifies text other → value ≡ other }
{}

/// What is printed of a reference is its text, as `ior_to_text` writes it, and spells it.
pub fn a_printed_reference_is_spelled()
    ensures text { (members : Trees) (depth : ℕ) → FitsObject (Items members) depth
        → (reference : Reference) × (Items members ≡ reference_tree reference)
        × IsTextOf reference (reference_text members) }
    ensures spelled { (members : Trees) (depth : ℕ) → FitsObject (Items members) depth
        → Stringifies (reference_text members) (Items members) }
{}
