//! Replies to requests.

ghost use Rattle.std.specs.Prelude.{◌≡◌, ◌<◌, ◌^◌, pos, IfOk, IsTrue};
ghost use Rattle.type_graph.specs.declared.width.Order.TheVariants.{Big};
ghost use Rattle.type_graph.specs.declared.width.Width.TheVariants.{One};
ghost use Rattle.type_graph.specs.Words.{word};
ghost use Rattle.giop_types.specs.GiopNodes.{giop_nodes};
ghost use Rattle.giop_types.specs.Named.{has_name};
ghost use Rattle.giop_messages.specs.Messages.{asked_of};
ghost use Rattle.broker_answers.specs.Replies.{IsSent, IsUnsendable, acceptance, exception_reply, reply_of, truth_number, truth_reply};

use crate::exception::BrokerException;
use giop::{Giop, GiopFault, ReplyStatus, Request};
use giop_types::{BOOLEAN_RESULT, SYSTEM_EXCEPTION};
use position_checker::Accepted;
use std::alloc::{AllocError, Global};

/// A request that is replied to, and what replies are made with.
#[derive(Clone, Copy)]
pub(crate) struct Replier<'r, 'b> {
    pub(crate) giop: &'r Giop,
    /// The types by which arguments and results are read and written.
    pub(crate) accepted: &'r Accepted,
    pub(crate) alloc: Global,
    pub(crate) request: &'r Request<'b>,
}

/// The tape of a boolean.
fn truth_tape(truth: bool) -> [u8; 1]
    ensures { result ≡ word Big One (pos (truth_number truth)) }
{
    if truth { [1] } else { [0] }
}

impl<'r, 'b> Replier<'r, 'b> {
    /// The number of the request, which a reply repeats.
    fn number(&self) -> u32
        ensures is { result ≡ self.now.request.now.id }
        ensures fits { self.now.request.now.id < 2 ^ 32 }
    {
        self.request.id
    }

    /// A reply whose body is of the types of GIOP, and which can be sent.
    #[tactic(auto, using(crate::proofs::Readings::giop_named))]
    fn send_own(&self, status: ReplyStatus, node: u32, tape: &[u8]) -> Result<Vec<u8>, AllocError>
        requires named { IsTrue (has_name node) }
        requires sendable { IsUnsendable (asked_of self.now.request.now)
            (reply_of status giop_nodes node tape.now) → ⊥ }
        ensures { IfOk result (λ octets.
            IsSent (asked_of self.now.request.now) (reply_of status giop_nodes node tape.now) octets.items) }
    {
        let body = Some((self.giop.table(), node, tape));
        let order = self.request.order;
        let id = self.request.id;
        match self.giop.write_reply(self.alloc, order, id, status, body) {
            Ok(octets) => Ok(octets),
            Err(fault) => match fault {
                GiopFault::NoMemory => Err(AllocError),
                _ => unreachable!(),
            },
        }
    }

    /// The reply that a system exception was raised.
    pub(crate) fn exception(&self, exception: BrokerException) -> Result<Vec<u8>, AllocError>
        ensures { IfOk result (λ octets.
            IsSent (asked_of self.now.request.now) (exception_reply exception) octets.items) }
    {
        // its size, which a proof needs
        let _id = self.number();
        let tape = exception.tape(self.alloc)?;
        self.send_own(
            ReplyStatus::SystemException,
            SYSTEM_EXCEPTION,
            tape.as_slice(),
        )
    }

    /// The reply to `_is_a` or `_non_existent`.
    pub(crate) fn truth(&self, truth: bool) -> Result<Vec<u8>, AllocError>
        ensures { IfOk result (λ octets. IsSent (asked_of self.now.request.now) (truth_reply truth) octets.items) }
    {
        // its size, which a proof needs
        let _id = self.number();
        let tape = truth_tape(truth);
        self.send_own(ReplyStatus::NoException, BOOLEAN_RESULT, tape.as_slice())
    }

    /// The reply that a call was made, and nothing more.
    pub(crate) fn acceptance(&self) -> Result<Vec<u8>, AllocError>
        ensures { IfOk result (λ octets. IsSent (asked_of self.now.request.now) acceptance octets.items) }
    {
        // its size, which a proof needs
        let _id = self.number();
        let order = self.request.order;
        let id = self.request.id;
        match self
            .giop
            .write_reply(self.alloc, order, id, ReplyStatus::NoException, None)
        {
            Ok(octets) => Ok(octets),
            Err(fault) => match fault {
                GiopFault::NoMemory => Err(AllocError),
                _ => unreachable!(),
            },
        }
    }
}
