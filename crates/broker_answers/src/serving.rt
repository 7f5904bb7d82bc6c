//! Whole messages served.

ghost use Rattle.std.specs.Prelude.{◌≡◌, ◌⊎◌, false, true, IfOk, OnErr, Some};
ghost use Rattle.giop_messages.specs.Runs.{IsMessage};
ghost use Rattle.giop_messages.specs.Messages.{content_of};
ghost use Rattle.broker_answers.specs.Answering.{MayMoveRaw};
ghost use Rattle.broker_answers.specs.Servants.{acts};
ghost use Rattle.broker_answers.specs.Serving.{ServesRaw, closes as closes_item, message_error};

use crate::servant::Servant;
use crate::service::Service;
use giop::Message;
use giop_messages::Head;
use std::alloc::{AllocError, Global};

/// The answer to a message, and whether the connection is closed then.
#[derive(Drop)]
pub struct Answer {
    pub octets: Vec<u8>,
    pub closes: bool,
}

/// Whether a message closes the connection.
fn closes(message: &Message<'_>) -> bool
    ensures { result ≡ closes_item (Some (content_of message.now)) }
{
    match message {
        Message::Request(_) | Message::Cancel(_) | Message::Locate(_) => false,
        Message::Reply(_) | Message::CloseConnection | Message::MessageError => true,
    }
}

impl Service {
    /// The answer to what is no message.
    ///
    /// # Errors
    /// Want of memory.
    pub fn refuse(&self, alloc: Global) -> Result<Answer, AllocError>
        ensures octets { IfOk result (λ answer. answer.octets.items ≡ message_error) }
        ensures closes { IfOk result (λ answer. answer.closes ≡ true) }
    {
        match self.giop.write_message_error(alloc) {
            Ok(octets) => Ok(Answer {
                octets,
                closes: true,
            }),
            Err(error) => Err(error),
        }
    }

    /// The answer to the octets of a whole message, whose head this is.
    ///
    /// # Errors
    /// Want of memory: the servant was given the call before, or it wasn't.
    #[tactic(auto, using(crate::proofs::ServedRaws::served_raw, crate::proofs::ServedRaws::may_move_raw, crate::proofs::ServedRaws::no_message))]
    pub fn serve<S: Servant>(
        &self,
        alloc: Global,
        servant: &mut S,
        head: &Head,
        octets: &[u8],
    ) -> Result<Answer, AllocError>
        requires message { IsMessage head.now octets.now }
        requires alone { head.now.goes_on ≡ false }
        ensures served { IfOk result (λ answer. ServesRaw (acts S.says S.after) self.now (Some octets.now)
            servant.old answer.octets.items answer.closes servant.new) }
        ensures given_up { OnErr result
            (MayMoveRaw (acts S.says S.after) self.now (Some octets.now) servant.old servant.new) }
    {
        let message = match self.giop.read_whole(alloc, head, octets) {
            Ok(Some(message)) => message,
            Ok(None) => return self.refuse(alloc),
            Err(error) => return Err(error),
        };
        let closes = closes(&message);
        match &message {
            Message::Request(request) => Ok(Answer {
                octets: self.answer_request(alloc, servant, request)?,
                closes,
            }),
            Message::Locate(locate) => Ok(Answer {
                octets: self.locate(alloc, locate)?,
                closes,
            }),
            Message::Reply(_) => self.refuse(alloc),
            Message::Cancel(_) | Message::CloseConnection | Message::MessageError => Ok(Answer {
                octets: Vec::new(alloc),
                closes,
            }),
        }
    }
}
