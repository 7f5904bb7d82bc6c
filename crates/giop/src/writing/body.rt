//! What stands behind a header.

ghost use Rattle.std.specs.Prelude.{◌+◌, ◌^◌, ◌<◌, ◌++◌, ℕ, List, replicate, IfOk, IfErr};
ghost use Rattle.std.specs.Option.{ForSome};
ghost use Rattle.type_model.specs.Names.{IsNamed};
ghost use Rattle.giop_messages.specs.declared.fault.GiopFault.TheVariants.{BadBody};
ghost use Rattle.giop_messages.specs.Faults.{IsMemoryOr};
ghost use Rattle.giop_messages.specs.Written.{IsBody};
ghost use Rattle.giop.specs.Made.{given_by};

use crate::gap::gap_at;
use crate::writing::message::Writing;
use giop_messages::GiopFault;
use position_checker::Accepted;
use program_runner::RunFault;

/// A body: accepted types, the number of a named node there, and the tape of its value.
pub type Body<'t> = (&'t Accepted, u32, &'t [u8]);

impl<'w> Writing<'w> {
    /// What stands behind a header that ends at a place: so many zeros, and these octets.
    pub(crate) fn after_header(
        &self,
        stop: usize,
        body: Option<Body<'_>>,
    ) -> Result<(usize, Vec<u8>), GiopFault>
        requires named { ForSome body (λ b. IsNamed b.0.now.model.names b.1) }
        requires room { stop + 8 < 2 ^ 64 }
        ensures gap { IfOk result (λ r. r.0 < 8) }
        ensures body { IfOk result (λ r.
            IsBody self.now.order (given_by body.entry) stop (replicate r.0 0 ++ r.1.items)) }
        ensures refused { IfErr result (λ fault. IsMemoryOr BadBody fault
            ((octets : List ℕ) → IsBody self.now.order (given_by body.entry) stop octets → ⊥)) }
    {
        let Some((types, node, tape)) = body else {
            return Ok((0, Vec::new(self.alloc)));
        };
        let gap = gap_at(stop);
        match types.write(self.alloc, node, self.order, (stop + gap) as u64, tape) {
            Ok(octets) if tape.is_empty() => Ok((0, octets)),
            Ok(octets) => Ok((gap, octets)),
            Err(fault) => match fault {
                RunFault::NoMemory => Err(GiopFault::NoMemory),
                _ => Err(GiopFault::BadBody),
            },
        }
    }
}
