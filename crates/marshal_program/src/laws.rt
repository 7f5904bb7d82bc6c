//! Laws over the definitions. The functions do nothing: each contract is the law.

ghost use Rattle.std.specs.Prelude.{◌≡◌, ℕ, ◌%◌, ◌<◌, ◌↔◌, List, Some, length};
ghost use Rattle.type_graph.specs.declared.node.Node.{Node};
ghost use Rattle.type_graph.specs.Words.{Format};
ghost use Rattle.type_graph.specs.Relation.{Chain};
ghost use Rattle.type_graph.specs.Encoding.{Means};
ghost use Rattle.type_graph.specs.GraphRules.{IsGraph};
ghost use Rattle.marshal_program.specs.declared.instr.Routine.{Routine};
ghost use Rattle.marshal_program.specs.Does.{Does, Runs, code_at};
ghost use Rattle.marshal_program.specs.ProgramRules.{IsProgram};
ghost use Rattle.marshal_program.specs.Plain.{HasPlainProgram, plain_program};
ghost use Rattle.marshal_program.specs.Joined.{joined_program};
ghost use Rattle.marshal_program.specs.Served.{served_by};

/// What a routine relates at a position, it relates at every position that is the same modulo 8.
pub fn run_has_period_eight()
    ensures { (program : List Routine) (format : Format) (depth routine p q : ℕ) (tape octets : List ℕ) → q % 8 ≡ p % 8
        → Runs program format depth routine p tape octets → Runs program format depth routine q tape octets }
{}

/// What a routine relates is what its instructions relate, one behind the other.
pub fn run_is_chain_of_code()
    ensures { (program : List Routine) (format : Format) (depth routine p : ℕ) (tape octets : List ℕ)
        → Runs program format depth routine p tape octets
        ↔ Chain (Does (Runs program format) format depth) (code_at program routine) p tape octets }
{}

/// Every routine of a plain program relates the tapes and octets that its node means: at every
/// depth and position, in both byte orders, whatever the gaps may hold.
pub fn plain_program_is_right()
    ensures right { (graph : List Node) → HasPlainProgram graph
        → (format : Format) (depth number p : ℕ) (tape octets : List ℕ) → number < length graph
        → Runs (plain_program graph) format depth number p tape octets ↔ Means graph format depth number p tape octets }
    ensures every_graph { (graph : List Node) → IsGraph graph → HasPlainProgram graph }
{}

/// The plain program of a graph that keeps its rules keeps those of a program, its limits included.
pub fn plain_program_keeps_the_rules()
    ensures { (graph : List Node) → IsGraph graph → IsProgram (plain_program graph) }
{}

/// In the plain program of a graph the routine with a node's number serves that node.
pub fn plain_program_serves_every_node()
    ensures { (graph : List Node) (number : ℕ) → number < length graph
        → served_by (plain_program graph) number ≡ Some number }
{}

/// The joined program of a graph that keeps its rules keeps those of a program, its limits included.
pub fn joined_program_keeps_the_rules()
    ensures { (graph : List Node) → IsGraph graph → IsProgram (joined_program graph) }
{}

/// In the joined program of a graph the routine with a node's number serves that node.
pub fn joined_program_serves_every_node()
    ensures { (graph : List Node) (number : ℕ) → number < length graph
        → served_by (joined_program graph) number ≡ Some number }
{}
