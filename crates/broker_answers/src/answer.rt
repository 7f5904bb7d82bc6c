//! Answers to requests.

ghost use Rattle.std.specs.Prelude.{IfOk, OnOk, OnErr};
ghost use Rattle.giop_messages.specs.Messages.{asked_of};
ghost use Rattle.broker_answers.specs.Answering.{IsAnswered, MayMove};
ghost use Rattle.broker_answers.specs.Findings.{Refuses, Tells};
ghost use Rattle.broker_answers.specs.Objects.{Served};
ghost use Rattle.broker_answers.specs.Replies.{AnswersRequest};
ghost use Rattle.broker_answers.specs.Servants.{Call, Said, acts};
ghost use Rattle.broker_answers.specs.Serving.{MovesRequest};

use crate::exception::BrokerException;
use crate::finding::Finding;
use crate::reply::Replier;
use crate::scope::{SyncScope, sync_scope};
use crate::servant::Servant;
use crate::service::Service;
use giop::Request;
use std::alloc::{AllocError, Global};

impl<'r, 'b> Replier<'r, 'b> {
    /// The answer that nothing can be done.
    fn refuse(&self, exception: BrokerException) -> Result<Vec<u8>, AllocError>
        ensures { IfOk result (λ octets. (served : Served) (says : Call → Said)
            → IsAnswered served (asked_of self.now.request.now) (Refuses exception) says octets.items) }
    {
        match sync_scope(self.request.flags) {
            SyncScope::WithTarget | SyncScope::WithServer => self.exception(exception),
            SyncScope::NoResponse => Ok(Vec::new(self.alloc)),
        }
    }

    /// The answer to a question.
    fn tell(&self, truth: bool) -> Result<Vec<u8>, AllocError>
        ensures { IfOk result (λ octets. (served : Served) (says : Call → Said)
            → IsAnswered served (asked_of self.now.request.now) (Tells truth) says octets.items) }
    {
        match sync_scope(self.request.flags) {
            SyncScope::WithTarget => self.truth(truth),
            SyncScope::WithServer => self.acceptance(),
            SyncScope::NoResponse => Ok(Vec::new(self.alloc)),
        }
    }
}

impl Service {
    /// The answer to a request: what it asks is refused or told, or the servant is called.
    ///
    /// # Errors
    /// Want of memory: the servant was given the call before, or it wasn't.
    #[tactic(auto, using(crate::proofs::Requests::is_answered, crate::proofs::Requests::is_moved, crate::proofs::Requests::may_move))]
    pub(crate) fn answer_request<S: Servant>(
        &self,
        alloc: Global,
        servant: &mut S,
        request: &Request<'_>,
    ) -> Result<Vec<u8>, AllocError>
        ensures answered { IfOk result (λ octets.
            AnswersRequest self.now (asked_of request.now) (S.says servant.old) octets.items) }
        ensures moved { OnOk result
            (MovesRequest (acts S.says S.after) self.now (asked_of request.now) servant.old servant.new) }
        ensures given_up { OnErr result
            (MayMove (acts S.says S.after) self.now (asked_of request.now) servant.old servant.new) }
    {
        let replier = Replier {
            giop: &self.giop,
            accepted: &self.accepted,
            alloc,
            request,
        };
        let call = match self.find(alloc, request)? {
            Finding::Refuses(exception) => return replier.refuse(exception),
            Finding::Tells(truth) => return replier.tell(truth),
            Finding::Calls(call) => call,
        };
        let arguments = call.arguments.as_slice();
        let outcome = servant.call(alloc, call.object, call.number, arguments)?;
        match sync_scope(request.flags) {
            SyncScope::WithTarget => replier.reply_to(&call, &outcome),
            SyncScope::WithServer => replier.acceptance(),
            SyncScope::NoResponse => Ok(Vec::new(alloc)),
        }
    }
}
