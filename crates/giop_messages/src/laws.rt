//! Laws of streams and messages, over the definitions alone.

ghost use Rattle.std.specs.Prelude.{◌≡◌, ℕ, List, [], ◌++◌, Option, None};
ghost use Rattle.type_graph.specs.declared.node.Node.{Node};
ghost use Rattle.type_graph.specs.declared.width.Order.{Order};
ghost use Rattle.type_graph.specs.GraphRules.{IsGraph};
ghost use Rattle.type_graph.specs.Words.{writing};
ghost use Rattle.type_graph.specs.Value.{Tree, node_at};
ghost use Rattle.type_graph.specs.Encoding.{Encodes, Means};
ghost use Rattle.giop_messages.specs.Framing.{Whole, front};
ghost use Rattle.giop_messages.specs.Messages.{Content, Says};
ghost use Rattle.giop_messages.specs.Runs.{IsRun};
ghost use Rattle.giop_messages.specs.Streams.{IsLonger};

/// The front of a stream stays what it is when more octets come.
pub fn more_octets_leave_the_front()
    ensures { (run : Option (List ℕ)) (octets more : List ℕ)
        → IsLonger more (front run octets) (front run (octets ++ more)) }
{}

/// What a run keeps is a whole message, at whose front it stands itself.
pub fn run_is_one_message()
    ensures { (run : List ℕ) → IsRun run → front None run ≡ Whole run None [] }
{}

/// A value has one encoding with zeros in the gaps at a position, and so has a tape.
pub fn one_is_written()
    ensures value { (order : Order) (graph : List Node) (node : Node) (value : Tree) (p : ℕ) (octets other : List ℕ)
        → Encodes (writing order) graph node value p octets → Encodes (writing order) graph node value p other
        → octets ≡ other }
    ensures tape { (graph : List Node) → IsGraph graph
        → (order : Order) (depth number p : ℕ) (tape octets other : List ℕ)
        → Means graph (writing order) depth number p tape octets
        → Means graph (writing order) depth number p tape other → octets ≡ other }
{}

/// Octets say at most one thing.
pub fn one_is_said()
    ensures { (octets : List ℕ) (a b : Content) → Says octets a → Says octets b → a ≡ b }
{}
