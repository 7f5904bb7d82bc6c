//! Requests written.

ghost use Rattle.std.specs.Prelude.{◌≡◌, ◌≤◌, ◌+◌, ◌++◌, pos, [], ◌∷◌, length, IfOk, IfErr, OnOk};
ghost use Rattle.std.specs.Option.{ForSome};
ghost use Rattle.type_graph.specs.declared.width.Order.TheVariants.{Big};
ghost use Rattle.type_graph.specs.declared.width.Width.TheVariants.{One, Four};
ghost use Rattle.type_graph.specs.Words.{word};
ghost use Rattle.type_graph.specs.Value.{Fits, IsText, NoTree, node_at, tape_of};
ghost use Rattle.type_model.specs.Names.{IsNamed};
ghost use Rattle.giop_types.specs.TapeParts.{counted};
ghost use Rattle.giop_messages.specs.Heads.{max_size, request_type};
ghost use Rattle.giop_types.specs.GiopNodes.{giop_nodes, request_header_node};
ghost use Rattle.giop_types.specs.Fields.{octet_trees};
ghost use Rattle.giop_messages.specs.declared.fault.GiopFault.TheVariants.{BadHead};
ghost use Rattle.giop_messages.specs.Faults.{IsMemoryOr};
ghost use Rattle.giop_messages.specs.Headers.{key_target, request_tree};
ghost use Rattle.giop_messages.specs.Written.{IsWritten};
ghost use Rattle.giop.specs.Addresses.{target_tree};
ghost use Rattle.giop.specs.Made.{given_by};
ghost use Rattle.giop.specs.Refusal.{IsNotWritten};
ghost use Rattle.giop.specs.inner.Pushed.{FitsAsTarget};

use crate::giop_calls::Giop;
use crate::writing::body::Body;
use crate::writing::message::Writing;
use crate::writing::target::{Addressed, is_text, push_target};
use giop_messages::GiopFault;
use giop_types::{REQUEST_HEADER, push_octets, push_u8, push_u32};
use std::alloc::{AllocError, Global};
use type_graph::Order;

/// The number of this type of messages.
const REQUEST: u8 = 0;

/// Puts a number, flags and three reserved zeros behind a tape.
fn push_start(tape: &mut Vec<u8>, id: u32, flags: u8) -> Result<(), AllocError>
    ensures { OnOk result (tape.new.items
        ≡ tape.old.items ++ (word Big Four (pos id) ++ (word Big One (pos flags) ++ (0 ∷ 0 ∷ 0 ∷ [])))) }
{
    push_u32(tape, id)?;
    push_u8(tape, flags)?;
    tape.extend_from_slice(&[0, 0, 0])
}

/// Puts an operation and no service contexts behind a tape. A string isn't too long for its count.
fn push_operation(tape: &mut Vec<u8>, operation: &[u8]) -> Result<(), AllocError>
    ensures { OnOk result (tape.new.items ≡ tape.old.items ++ (counted operation.now ++ word Big Four (pos 0))) }
{
    match push_octets(tape, operation) {
        Ok(()) => push_u32(tape, 0),
        Err(_) => Err(AllocError),
    }
}

/// A number, flags, a target, an operation, no service contexts.
fn header_tape(
    alloc: Global,
    id: u32,
    flags: u8,
    target: Addressed<'_>,
    operation: &[u8],
) -> Result<Vec<u8>, GiopFault>
    ensures tape { IfOk result (λ tape. tape.items ≡ tape_of giop_nodes (node_at giop_nodes request_header_node)
        (request_tree id flags (octet_trees (0 ∷ 0 ∷ 0 ∷ [])) (target_tree target.entry) operation.now NoTree)) }
    ensures fits { OnOk result (Fits giop_nodes (node_at giop_nodes request_header_node)
        (request_tree id flags (octet_trees (0 ∷ 0 ∷ 0 ∷ [])) (target_tree target.entry) operation.now NoTree) 64) }
    ensures refused { IfErr result (λ fault.
        IsMemoryOr BadHead fault (FitsAsTarget (target_tree target.entry) → IsText 0 operation.now → ⊥)) }
{
    if !is_text(operation) {
        return Err(GiopFault::BadHead);
    }
    let mut tape = Vec::new(alloc);
    push_start(&mut tape, id, flags)?;
    match push_target(&mut tape, target) {
        Ok(()) => (),
        Err(fault) => return Err(fault),
    }
    push_operation(&mut tape, operation)?;
    Ok(tape)
}

impl Giop {
    /// Writes a request with this number and these response flags, for the object that a target
    /// names: its header, without service contexts, and its body at the next multiple of 8. Where the
    /// body's tape is empty, nothing stands behind the header.
    ///
    /// # Errors
    /// `BadHead` where the operation or the id of the target's reference holds a zero, or where one
    /// of them, or a part of the target, is too long for its count. `BadBody` where the tape is no
    /// value's of the body's node, `TooLong` where more than 1,048,576 octets would stand behind the
    /// head. Want of memory.
    pub fn write_request_to(
        &self,
        alloc: Global,
        order: Order,
        id: u32,
        flags: u8,
        target: Addressed<'_>,
        operation: &[u8],
        body: Option<Body<'_>>,
    ) -> Result<Vec<u8>, GiopFault>
        requires { ForSome body (λ b. IsNamed b.0.now.model.names b.1) }
        // the messages of type 0, whose header is of node 17
        ensures written { IfOk result (λ octets. IsWritten order request_type request_header_node
            (request_tree id flags (octet_trees (0 ∷ 0 ∷ 0 ∷ [])) (target_tree target.entry) operation.now NoTree)
            (given_by body.entry) octets.items) }
        ensures limited { IfOk result (λ octets. length octets.items ≤ 12 + max_size) }
        ensures refused { IfErr result (λ fault. IsNotWritten fault order request_type request_header_node
            (request_tree id flags (octet_trees (0 ∷ 0 ∷ 0 ∷ [])) (target_tree target.entry) operation.now NoTree)
            (given_by body.entry)) }
    {
        let tape = match header_tape(alloc, id, flags, target, operation) {
            Ok(tape) => tape,
            Err(fault) => return Err(fault),
        };
        let writing = Writing {
            types: &self.types,
            alloc,
            order,
            kind: REQUEST,
            node: REQUEST_HEADER,
        };
        writing.write(tape.as_slice(), body)
    }

    /// As `write_request_to`, for the object of a key.
    ///
    /// # Errors
    /// `BadHead` where the operation holds a zero, or it or the key is too long for its count.
    /// `BadBody` where the tape is no value's of the body's node, `TooLong` where more than
    /// 1,048,576 octets would stand behind the head. Want of memory.
    pub fn write_request(
        &self,
        alloc: Global,
        order: Order,
        id: u32,
        flags: u8,
        key: &[u8],
        operation: &[u8],
        body: Option<Body<'_>>,
    ) -> Result<Vec<u8>, GiopFault>
        requires { ForSome body (λ b. IsNamed b.0.now.model.names b.1) }
        // the messages of type 0, whose header is of node 17
        ensures written { IfOk result (λ octets. IsWritten order request_type request_header_node
            (request_tree id flags (octet_trees (0 ∷ 0 ∷ 0 ∷ [])) (key_target key.now) operation.now NoTree)
            (given_by body.entry) octets.items) }
        ensures limited { IfOk result (λ octets. length octets.items ≤ 12 + max_size) }
        ensures refused { IfErr result (λ fault. IsNotWritten fault order request_type request_header_node
            (request_tree id flags (octet_trees (0 ∷ 0 ∷ 0 ∷ [])) (key_target key.now) operation.now NoTree)
            (given_by body.entry)) }
    {
        self.write_request_to(
            alloc,
            order,
            id,
            flags,
            Addressed::Key(key),
            operation,
            body,
        )
    }
}
