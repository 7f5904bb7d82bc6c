//! Where headers and bodies stand.

ghost use Rattle.std.specs.Prelude.{◌≡◌, ◌≤◌, ℕ, length, IfOk, IfSome, IfNone, IsTrue};
ghost use Rattle.type_graph.specs.Value.{Tree};
ghost use Rattle.giop_types.specs.Named.{has_name};
ghost use Rattle.giop_messages.specs.Messages.{HasBody, HasHeader};
ghost use Rattle.giop.specs.inner.Tapes.{IsTapeAt};

use crate::gap::gap_at;
use crate::reading::message::Reading;
use giop_messages::HEAD_LEN;
use std::alloc::AllocError;

impl<'r, 'b> Reading<'r, 'b> {
    /// The tape of the header behind the head, and the place where it ends; none where no header of
    /// the node stands there.
    pub(crate) fn header_tape(&self, node: u32) -> Result<Option<(Vec<u8>, usize)>, AllocError>
        requires named { IsTrue (has_name node) }
        requires long { 12 ≤ length self.now.octets.now }
        ensures found { IfOk result (λ o. IfSome o (λ r.
            IsTapeAt self.now.octets.now self.now.head.now.order node r.0.items r.1)) }
        ensures within { IfOk result (λ o. IfSome o (λ r. r.1 ≤ length self.now.octets.now)) }
        ensures refused { IfOk result (λ o. IfNone o ((value : Tree) (stop : ℕ)
            → HasHeader self.now.octets.now self.now.head.now.order node value stop → ⊥)) }
    {
        let behind = self.octets.split_at(HEAD_LEN).1;
        let order = self.head.order;
        match self
            .types
            .find(self.alloc, node, order, HEAD_LEN as u64, behind)?
        {
            Some((tape, taken)) => Ok(Some((tape, HEAD_LEN + taken))),
            None => Ok(None),
        }
    }
}

/// Where the body behind a header stands, and the octets from there on.
pub(crate) fn body_behind(octets: &[u8], stop: usize) -> (usize, &[u8])
    requires { stop ≤ length octets.now }
    ensures { HasBody octets.now stop result.0 result.1.now }
{
    let place = stop + gap_at(stop);
    if place < octets.len() {
        (place, octets.split_at(place).1)
    } else {
        (place, &[])
    }
}
