//! What a request asks for.

ghost use Rattle.std.specs.Prelude.{◌≡◌, ◌↔◌, IfOk, IsTrue, option_map};
ghost use Rattle.type_model.specs.ModelRules.{Parts};
ghost use Rattle.type_model.specs.Names.{IsNamed};
ghost use Rattle.giop_messages.specs.Messages.{asked_of};
ghost use Rattle.giop_types.specs.GiopNodes.{giop_nodes, id_argument_node};
ghost use Rattle.broker_answers.specs.Findings.{IsRead, IsReading, Tells};
ghost use Rattle.broker_answers.specs.inner.FindingSteps.{HasId, IsKnown, IsTypeAsked, finding_of};

use crate::exception::BrokerException;
use crate::objects::is_a;
use giop::{Giop, Request};
use giop_types::{ID_ARGUMENT, find_value, split_octets};
use position_checker::Accepted;
use std::alloc::{AllocError, Global};
use type_model::{Interface, Operation};

/// A call that a request asks of the servant.
#[derive(Drop)]
pub(crate) struct AskedCall<'s> {
    /// The place of the object among those that are served.
    pub(crate) object: usize,
    /// The place of the operation in the model.
    pub(crate) number: u32,
    pub(crate) operation: &'s Operation,
    /// The tape of the request frame.
    pub(crate) arguments: Vec<u8>,
}

/// What a request asks for.
#[derive(Drop)]
pub(crate) enum Finding<'s> {
    /// Nothing that can be done.
    Refuses(BrokerException),
    /// A question that is answered without the servant.
    Tells(bool),
    Calls(AskedCall<'s>),
}

/// Whether a request names this operation.
pub(crate) fn is_called(request: &Request<'_>, name: &str) -> bool
    ensures { IsTrue result ↔ (request.now.operation.items ≡ name.now) }
{
    request.operation.as_slice() == name.as_bytes()
}

/// The tape of the value of a node at the front of a request's body, if there is one.
#[tactic(auto, using(crate::proofs::Readings::read_is, crate::proofs::Readings::unread))]
pub(crate) fn read_body(
    alloc: Global,
    accepted: &Accepted,
    node: u32,
    request: &Request<'_>,
) -> Result<Option<Vec<u8>>, AllocError>
    requires { IsNamed accepted.now.model.names node }
    ensures { IfOk result (λ tape.
        IsReading accepted.now.model.graph (asked_of request.now) node (option_map (λ t. t.items) tape)) }
{
    let place = request.body_at as u64;
    match find_value(accepted, alloc, node, request.order, place, request.octets)? {
        Some((tape, _)) => Ok(Some(tape)),
        None => Ok(None),
    }
}

/// Whether the id that this tape says is one of the interface's.
#[tactic(auto, using(crate::proofs::Readings::id_read, crate::proofs::Readings::id_is_there))]
fn has_type(interface: &Interface, request: &Request<'_>, tape: &[u8]) -> bool
    requires { IsRead giop_nodes (asked_of request.now) id_argument_node tape.now }
    ensures { HasId interface.now (asked_of request.now) (Tells result) }
{
    match split_octets(tape) {
        Some((id, _)) => is_a(interface, id),
        None => unreachable!(),
    }
}

/// What `_is_a` asks of an object with this interface.
#[tactic(auto, using(crate::proofs::Readings::id_named))]
pub(crate) fn type_asked<'s>(
    giop: &'s Giop,
    alloc: Global,
    interface: &Interface,
    request: &Request<'_>,
) -> Result<Finding<'s>, AllocError>
    ensures known { IfOk result (λ f. (model : Parts) → IsKnown model f) }
    ensures asked { IfOk result (λ f. IsTypeAsked interface.now (asked_of request.now) (finding_of f)) }
{
    match read_body(alloc, giop.table(), ID_ARGUMENT, request)? {
        Some(tape) => Ok(Finding::Tells(has_type(interface, request, tape.as_slice()))),
        None => Ok(Finding::Refuses(BrokerException::Marshal)),
    }
}
