//! The code of a node's routine in the plain program.

ghost use Rattle.std.specs.Prelude.{◌≡◌, ◌<◌, [], ◌∷◌, length, map, IfOk};
ghost use Rattle.type_graph.specs.GraphRules.{IsNode};
ghost use Rattle.type_graph.specs.declared.node.Node.TheVariants as nodes;
ghost use Rattle.marshal_program.specs.declared.instr.Instr.TheVariants as instrs;
ghost use Rattle.marshal_program.specs.Plain.{aligned_to, plain_code};

use marshal_program::{Disc, Instr};
use std::alloc::{AllocError, Global};
use type_graph::{Arms, Graph, Node, Width};

/// An instruction behind the gap to the alignment, which a single octet doesn't have.
fn aligned(alloc: Global, to: Width, instr: Instr) -> Result<Vec<Instr>, AllocError>
    ensures { IfOk result (λ code. code.items ≡ aligned_to to (instr ∷ [])) }
{
    let mut code = Vec::new(alloc);
    if to != Width::One {
        code.push(Instr::Align { to })?;
    }
    code.push(instr)?;
    Ok(code)
}

/// A call for each member, in order.
fn calls(alloc: Global, members: &[u32]) -> Result<Vec<Instr>, AllocError>
    ensures { IfOk result (λ code. code.items ≡ map instrs.Call members.now) }
{
    let mut code = Vec::new(alloc);
    for member in members {
        code.push(Instr::Call { routine: *member })?;
    }
    Ok(code)
}

fn copied(alloc: Global, arms: &Arms) -> Result<Arms, AllocError>
    ensures { IfOk result (λ copy. copy ≡ arms.now) }
{
    let mut pairs = Vec::new(alloc);
    pairs.extend_from_slice(arms.as_slice())?;
    Ok(Arms::new(pairs))
}

/// The discriminator, aligned where it is wider than an octet, and what its labels choose.
fn switched(
    alloc: Global,
    graph: &Graph,
    switch: u32,
    arms: &Arms,
    default: Option<u32>,
) -> Result<Vec<Instr>, AllocError>
    requires { switch < length graph.now }
    ensures { IfOk result (λ code. code.items ≡ plain_code graph.now (nodes.Union switch arms.now default)) }
{
    let node = graph.node(switch);
    let instr = Instr::Switch {
        disc: Disc::of(node),
        arms: copied(alloc, arms)?,
        otherwise: default,
    };
    aligned(alloc, node.number_width(), instr)
}

/// The instructions of the routine of a node.
#[tactic(auto, using(type_graph::proofs::Held::elem_within, type_graph::proofs::Held::switch_within))]
pub fn code_of(alloc: Global, graph: &Graph, node: &Node) -> Result<Vec<Instr>, AllocError>
    requires { IsNode graph.now node.now }
    ensures { IfOk result (λ code. code.items ≡ plain_code graph.now node.now) }
{
    match node {
        Node::Octet | Node::Char => aligned(alloc, Width::One, Instr::Octets { n: 1 }),
        Node::Boolean => aligned(alloc, Width::One, Instr::Bools { n: 1 }),
        Node::Integer { width, .. } => {
            let width = *width;
            aligned(alloc, width, Instr::Words { width, n: 1 })
        }
        Node::Enum { n } => aligned(alloc, Width::Four, Instr::EnumWord { limit: *n }),
        Node::Text { bound } => aligned(alloc, Width::Four, Instr::Text { bound: *bound }),
        Node::Seq { elem, bound } => {
            let instr = Instr::SeqOf {
                bound: *bound,
                first: graph.lead(*elem),
                routine: *elem,
            };
            aligned(alloc, Width::Four, instr)
        }
        Node::Array { elem, n } => {
            let instr = Instr::Times {
                n: *n,
                routine: *elem,
            };
            aligned(alloc, Width::One, instr)
        }
        Node::Struct { members } | Node::Frame { members } => calls(alloc, members.as_slice()),
        Node::Union {
            switch,
            arms,
            default,
        } => switched(alloc, graph, *switch, arms, *default),
    }
}
