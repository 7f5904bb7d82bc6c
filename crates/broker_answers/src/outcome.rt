//! Replies to what the servant says.

ghost use Rattle.std.specs.Prelude.{◌≡◌, ◌++◌, IfOk, IfErr, IfSome, IfNone, OnOk, None, Some, option_map, slice_get};
ghost use Rattle.type_model.specs.Names.{IsNamed};
ghost use Rattle.giop_types.specs.TapeParts.{counted, IsCounted};
ghost use Rattle.giop_types.specs.TapeRefusal.{RefusesWriting};
ghost use Rattle.giop_messages.specs.Messages.{asked_of};
ghost use Rattle.broker_answers.specs.Replies.{IsThrown, Replies, reply_of};
ghost use Rattle.broker_answers.specs.inner.Sending.{IsRaising, IsThrowing, IsTried};
ghost use Rattle.broker_answers.specs.Servants.{said_of};

use crate::exception::BrokerException;
use crate::finding::AskedCall;
use crate::reply::Replier;
use crate::servant::Outcome;
use giop::{GiopFault, ReplyStatus};
use giop_types::{TapeFault, push_octets};
use std::alloc::{AllocError, Global};
use type_model::{Exception, Model, Operation};

fn exception_number(operation: &Operation, place: usize) -> Option<u32>
    ensures { result ≡ slice_get operation.now.exceptions place }
{
    operation.exceptions.as_slice().get(place).copied()
}

fn numbered_exception(model: &Model, number: u32) -> Option<&Exception>
    ensures { option_map (λ e. e.now) result ≡ slice_get model.now.exceptions number }
{
    model.exceptions().get(number as usize)
}

/// The exception at a place of an operation's list.
fn exception_at<'m>(
    model: &'m Model,
    number: u32,
    operation: &Operation,
    place: usize,
) -> Option<&'m Exception>
    requires { slice_get model.now.operations number ≡ Some operation.now }
    ensures found { IfSome result (λ e. IsThrown model.now operation.now place e.now) }
    ensures missing { IfNone result (slice_get operation.now.exceptions place ≡ None) }
{
    // the rules of the model, which a proof needs
    let _operations = model.operations();
    let Some(exception) = exception_number(operation, place) else {
        return None;
    };
    match numbered_exception(model, exception) {
        Some(exception) => Some(exception),
        None => unreachable!(),
    }
}

/// The tape of an exception: its id, and its members.
fn exception_tape(
    alloc: Global,
    exception: &Exception,
    members: &[u8],
) -> Result<Vec<u8>, TapeFault>
    ensures tape { IfOk result (λ tape. tape.items ≡ counted exception.now.id ++ members.now) }
    ensures counted { OnOk result (IsCounted exception.now.id) }
    ensures refused { IfErr result (λ fault. RefusesWriting fault (IsCounted exception.now.id → ⊥)) }
{
    let mut tape = Vec::new(alloc);
    match push_octets(&mut tape, exception.id.as_str().as_bytes()) {
        Ok(()) => (),
        Err(fault) => return Err(fault),
    }
    tape.extend_from_slice(members)?;
    Ok(tape)
}

impl<'r, 'b> Replier<'r, 'b> {
    /// A reply with this body, or else the exception that tells that there is none.
    fn try_send(&self, status: ReplyStatus, node: u32, tape: &[u8]) -> Result<Vec<u8>, AllocError>
        requires { IsNamed self.now.accepted.now.model.names node }
        ensures { IfOk result (λ octets. IsTried (asked_of self.now.request.now)
            (reply_of status self.now.accepted.now.model.graph node tape.now) octets.items) }
    {
        // the rules of the model, which a proof needs
        let _model = self.accepted.table().model();
        let body = Some((self.accepted, node, tape));
        let order = self.request.order;
        let id = self.request.id;
        match self.giop.write_reply(self.alloc, order, id, status, body) {
            Ok(octets) => Ok(octets),
            Err(fault) => match fault {
                GiopFault::NoMemory => Err(AllocError),
                _ => self.exception(BrokerException::Internal),
            },
        }
    }

    /// The reply that an exception was raised.
    fn throw(&self, exception: &Exception, members: &[u8]) -> Result<Vec<u8>, AllocError>
        requires { IsNamed self.now.accepted.now.model.names exception.now.frame }
        ensures { IfOk result (λ octets. IsThrowing self.now.accepted.now.model (asked_of self.now.request.now)
            exception.now members.now octets.items) }
    {
        match exception_tape(self.alloc, exception, members) {
            Ok(tape) => self.try_send(ReplyStatus::UserException, exception.frame, tape.as_slice()),
            Err(fault) => match fault {
                TapeFault::NoMemory => Err(AllocError),
                _ => self.exception(BrokerException::Internal),
            },
        }
    }

    /// The reply that the exception at a place of the operation's list was raised.
    #[tactic(auto, using(crate::proofs::Lookups::thrown_named))]
    fn raise(
        &self,
        call: &AskedCall<'_>,
        place: usize,
        members: &[u8],
    ) -> Result<Vec<u8>, AllocError>
        requires { slice_get self.now.accepted.now.model.operations call.now.number ≡ Some call.now.operation.now }
        ensures { IfOk result (λ octets. IsRaising self.now.accepted.now.model (asked_of self.now.request.now)
            call.now.operation.now place members.now octets.items) }
    {
        let model = self.accepted.table().model();
        match exception_at(model, call.number, call.operation, place) {
            Some(exception) => self.throw(exception, members),
            None => self.exception(BrokerException::Unknown),
        }
    }

    /// The reply to what the servant says to a call.
    pub(crate) fn reply_to(
        &self,
        call: &AskedCall<'_>,
        outcome: &Outcome,
    ) -> Result<Vec<u8>, AllocError>
        requires { slice_get self.now.accepted.now.model.operations call.now.number ≡ Some call.now.operation.now }
        ensures { IfOk result (λ octets. Replies self.now.accepted.now.model (asked_of self.now.request.now)
            call.now.operation.now (said_of outcome.now) octets.items) }
    {
        // the rules of the model, which a proof needs
        let _model = self.accepted.table().model();
        match outcome {
            Outcome::Done(tape) => self.try_send(
                ReplyStatus::NoException,
                call.operation.reply,
                tape.as_slice(),
            ),
            Outcome::Raised(place, members) => { self.raise(call, *place, members.as_slice()) }
            Outcome::NoImplement => self.exception(BrokerException::NoImplement),
        }
    }
}
