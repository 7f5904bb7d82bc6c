//! The places of a routine are followed instruction by instruction.

ghost use Rattle.std.specs.Prelude.{◌≡◌, ℕ, List, Some, Ok, Err, IfOk, IfErr};
ghost use Rattle.type_graph.specs.Words.{wider};
ghost use Rattle.routine_checker.specs.Steps.{step};
ghost use Rattle.routine_checker.specs.inner.Progress.{takes, state_of};

use crate::fault::{CheckFault, RoutinePlace};
use crate::judge::{ends, enters, pads};
use marshal_program::{Instr, Routine};
use type_graph::{Graph, Width};

/// The wider of two gaps, which both together are.
fn wider(gap: Width, more: Width) -> Width
    ensures { result ≡ wider gap more }
{
    match (gap, more) {
        (Width::One, more) | (Width::Two, more @ (Width::Two | Width::Four | Width::Eight)) => more,
        (Width::Two, Width::One) => Width::Two,
        (Width::Four, Width::Eight) | (Width::Eight, _) => Width::Eight,
        (Width::Four, _) => Width::Four,
    }
}

/// The positions that are possible in front of the gap that is made, and that gap.
#[derive(Clone, Copy)]
pub struct Reached {
    pub places: u8,
    pub gap: Width,
}

impl Reached {
    /// Judges the entries of what the instruction with a number names, then the gaps. Its work is
    /// there.
    pub fn step(
        self,
        graph: &Graph,
        program: &[Routine],
        at: RoutinePlace,
        n: u32,
        instr: &Instr,
    ) -> Result<Reached, CheckFault>
        ensures ok { IfOk result (λ next. (work rest : List ℕ)
            → takes graph.now program.now (Some instr.now) work ≡ Some rest
            → step graph.now program.now at n instr.now (state_of work self) ≡ Ok (state_of rest next)) }
        ensures refused { IfErr result (λ fault. (work rest : List ℕ)
            → takes graph.now program.now (Some instr.now) work ≡ Some rest
            → step graph.now program.now at n instr.now (state_of work self) ≡ Err fault) }
    {
        if let Instr::Align { to } = instr {
            return Ok(Reached {
                places: self.places,
                gap: wider(self.gap, *to),
            });
        }
        if !enters(program, instr, self.places, self.gap) {
            return Err(CheckFault::EntryOutside { at, instr: n });
        }
        if !pads(graph, program, instr, self.places, self.gap) {
            return Err(CheckFault::WrongPadding { at, instr: n });
        }
        Ok(Reached {
            places: ends(program, instr, self.places, self.gap),
            gap: Width::One,
        })
    }
}
