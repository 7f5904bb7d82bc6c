//! What holds of every program that the checker accepts, and which programs it accepts, as functions
//! that do nothing: each contract is the law.

ghost use Rattle.std.specs.Prelude.{◌≡◌, ℕ, ◌<◌, List, None, Some, length};
ghost use Rattle.type_graph.specs.declared.node.Node.{Node};
ghost use Rattle.type_graph.specs.GraphRules.{IsGraph};
ghost use Rattle.marshal_program.specs.declared.instr.Routine.{Routine};
ghost use Rattle.marshal_program.specs.ProgramRules.{IsProgram};
ghost use Rattle.marshal_program.specs.Plain.{plain_program};
ghost use Rattle.marshal_program.specs.Joined.{joined_program};
ghost use Rattle.marshal_program.specs.Served.{served_by};
ghost use Rattle.routine_checker.specs.Steps.{program_fault, name_fault};
ghost use Rattle.routine_checker.specs.Right.{AreRight};

/// Every routine of a program without a fault relates the tapes and octets that its node means: from
/// its entries, at every depth, in both byte orders, whatever the gaps may hold. It ends at its exits.
pub fn accepted_is_right()
    ensures { (which : ℕ) (graph : List Node) (program : List Routine) → IsGraph graph → IsProgram program
        → program_fault which graph program ≡ None → AreRight graph program }
{}

/// The plain program of a graph that keeps its rules is accepted, with any names of its nodes.
pub fn plain_program_is_accepted()
    ensures routines { (which : ℕ) (graph : List Node) → IsGraph graph
        → program_fault which graph (plain_program graph) ≡ None }
    ensures names { (graph : List Node) (number : ℕ) → number < length graph
        → name_fault (plain_program graph) number ≡ None }
{}

/// So is its joined program, in which the routine with a node's number serves that node.
pub fn joined_program_is_accepted()
    ensures routines { (which : ℕ) (graph : List Node) → IsGraph graph
        → program_fault which graph (joined_program graph) ≡ None }
    ensures names { (graph : List Node) (number : ℕ) → number < length graph
        → name_fault (joined_program graph) number ≡ None }
    ensures serves { (graph : List Node) (number : ℕ) → number < length graph
        → served_by (joined_program graph) number ≡ Some number }
{}
