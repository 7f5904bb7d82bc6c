//! Laws over the definitions. The functions do nothing: each contract is the law.

ghost use Rattle.std.specs.Prelude.{◌≡◌, ◌<◌, ℕ, List, length};
ghost use Rattle.json.specs.Token.{Token};
ghost use Rattle.type_model.specs.PartNamesNames.{AreApart, names_at};
ghost use Rattle.type_graph.specs.declared.node.Node.{Node};
ghost use Rattle.type_graph.specs.GraphRules.{IsGraph};
ghost use Rattle.type_graph.specs.Value.{Tree, node_at, Fits};
ghost use Rattle.value_text.specs.Texts.{text_at};
ghost use Rattle.value_text.specs.Says.{StandsFor};

/// A text stands for at most one value, where the names of a node's parts differ.
pub fn a_text_has_one_value()
    ensures { (names : List (List (List ℕ))) (graph : List Node) → IsGraph graph
        → ((number : ℕ) → number < length graph → AreApart (names_at names number))
        → (number : ℕ) (value other : Tree) (tokens : List Token) → StandsFor names graph number value tokens
        → StandsFor names graph number other tokens → value ≡ other }
{}

/// What is printed of a value stands for that value and no other.
pub fn a_printed_text_has_its_value()
    ensures { (names : List (List (List ℕ))) (graph : List Node) → IsGraph graph
        → ((number : ℕ) → number < length graph → AreApart (names_at names number))
        → (number : ℕ) (value other : Tree) → Fits graph (node_at graph number) value 64
        → StandsFor names graph number other (text_at names graph number value) → other ≡ value }
{}
