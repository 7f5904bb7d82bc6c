//! Replies to locate requests written.

ghost use Rattle.std.specs.Prelude.{◌≡◌, ◌≤◌, ◌+◌, length, None, IfOk, IfErr};
ghost use Rattle.type_graph.specs.Value.{node_at, tape_of};
ghost use Rattle.giop_messages.specs.Heads.{max_size, locate_reply_type};
ghost use Rattle.giop_types.specs.GiopNodes.{giop_nodes, locate_reply_header_node};
ghost use Rattle.giop_messages.specs.Headers.{here_number, here_tree};
ghost use Rattle.giop_messages.specs.Written.{IsWritten};
ghost use Rattle.giop.specs.Refusal.{IsNotWritten};

use crate::giop_calls::Giop;
use crate::writing::message::Writing;
use giop_messages::GiopFault;
use giop_types::{LOCATE_REPLY_HEADER, push_u32};
use std::alloc::{AllocError, Global};
use type_graph::Order;

/// The number of this type of messages.
const LOCATE_REPLY: u8 = 4;

/// A number and a status.
fn header_tape(alloc: Global, id: u32, here: bool) -> Result<Vec<u8>, AllocError>
    ensures { IfOk result (λ tape.
        tape.items ≡ tape_of giop_nodes (node_at giop_nodes 21) (here_tree id (here_number here))) }
{
    let mut tape = Vec::new(alloc);
    push_u32(&mut tape, id)?;
    push_u32(&mut tape, u32::from(here))?;
    Ok(tape)
}

impl Giop {
    /// Writes the reply to the locate request of a number: the object is here, or it isn't known.
    ///
    /// # Errors
    /// Want of memory.
    pub fn write_locate_reply(
        &self,
        alloc: Global,
        order: Order,
        id: u32,
        here: bool,
    ) -> Result<Vec<u8>, GiopFault>
        // the messages of type 4, whose header is of node 21
        ensures written { IfOk result (λ octets.
            IsWritten order locate_reply_type locate_reply_header_node
            (here_tree id (here_number here)) None octets.items) }
        ensures limited { IfOk result (λ octets. length octets.items ≤ 12 + max_size) }
        ensures refused { IfErr result
            (λ fault. IsNotWritten fault order locate_reply_type locate_reply_header_node
            (here_tree id (here_number here)) None) }
    {
        let tape = match header_tape(alloc, id, here) {
            Ok(tape) => tape,
            Err(_) => return Err(GiopFault::NoMemory),
        };
        let writing = Writing {
            types: &self.types,
            alloc,
            order,
            kind: LOCATE_REPLY,
            node: LOCATE_REPLY_HEADER,
        };
        writing.write(tape.as_slice(), None)
    }
}
