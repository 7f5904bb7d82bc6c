//! Replies written.

ghost use Rattle.std.specs.Prelude.{◌≡◌, ◌≤◌, ◌+◌, length, IfOk, IfErr};
ghost use Rattle.std.specs.Option.{ForSome};
ghost use Rattle.type_graph.specs.Value.{NoTree, node_at, tape_of};
ghost use Rattle.type_model.specs.Names.{IsNamed};
ghost use Rattle.giop_messages.specs.Heads.{max_size, reply_type};
ghost use Rattle.giop_types.specs.GiopNodes.{giop_nodes, reply_header_node};
ghost use Rattle.giop_messages.specs.Headers.{number_of, reply_tree};
ghost use Rattle.giop_messages.specs.Written.{IsWritten};
ghost use Rattle.giop.specs.Made.{given_by};
ghost use Rattle.giop.specs.Refusal.{IsNotWritten};

use crate::giop_calls::Giop;
use crate::writing::body::Body;
use crate::writing::message::Writing;
use giop_messages::{GiopFault, ReplyStatus};
use giop_types::{REPLY_HEADER, push_u32};
use std::alloc::{AllocError, Global};
use type_graph::Order;

/// The number of this type of messages.
const REPLY: u8 = 1;

/// A number, a status, no service contexts.
fn header_tape(alloc: Global, id: u32, status: ReplyStatus) -> Result<Vec<u8>, AllocError>
    ensures { IfOk result (λ tape.
        tape.items ≡ tape_of giop_nodes (node_at giop_nodes 19) (reply_tree id (number_of status) NoTree)) }
{
    let mut tape = Vec::new(alloc);
    push_u32(&mut tape, id)?;
    push_u32(&mut tape, status.number())?;
    push_u32(&mut tape, 0)?;
    Ok(tape)
}

impl Giop {
    /// Writes the reply to the request of a number: its header, without service contexts, and its
    /// body at the next multiple of 8. Where the body's tape is empty, nothing stands behind the
    /// header.
    ///
    /// # Errors
    /// `BadBody` where the tape is no value's of the body's node, `TooLong` where more than
    /// 1,048,576 octets would stand behind the head. Want of memory.
    pub fn write_reply(
        &self,
        alloc: Global,
        order: Order,
        id: u32,
        status: ReplyStatus,
        body: Option<Body<'_>>,
    ) -> Result<Vec<u8>, GiopFault>
        requires { ForSome body (λ b. IsNamed b.0.now.model.names b.1) }
        // the messages of type 1, whose header is of node 19
        ensures written { IfOk result (λ octets.
            IsWritten order reply_type reply_header_node (reply_tree id (number_of status) NoTree)
            (given_by body.entry) octets.items) }
        ensures limited { IfOk result (λ octets. length octets.items ≤ 12 + max_size) }
        ensures refused { IfErr result (λ fault.
            IsNotWritten fault order 1 19 (reply_tree id (number_of status) NoTree) (given_by body.entry)) }
    {
        let tape = match header_tape(alloc, id, status) {
            Ok(tape) => tape,
            Err(_) => return Err(GiopFault::NoMemory),
        };
        let writing = Writing {
            types: &self.types,
            alloc,
            order,
            kind: REPLY,
            node: REPLY_HEADER,
        };
        writing.write(tape.as_slice(), body)
    }
}
