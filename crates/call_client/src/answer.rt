//! What a reply says.

ghost use Rattle.std.specs.Prelude.{◌≡◌, IfOk, IfSome, IfNone};
ghost use Rattle.giop_messages.specs.Messages.{Answered, Answers, Says, answered_of, content_of};
ghost use Rattle.call_client.specs.Answers.{answer_of};

use giop::{Giop, Message, Reply, ReplyStatus};
use giop_messages::reply_streams::SentReply;
use std::alloc::{AllocError, Global};
use type_graph::Order;

/// The answer to a request.
#[derive(Drop)]
pub struct ReplyBody {
    /// The number of the request.
    pub id: u32,
    pub status: ReplyStatus,
    /// The byte order of the body.
    pub order: Order,
    /// Where the body stands, counted from the start of the message.
    pub body_at: usize,
    /// The octets from there on.
    pub body: Vec<u8>,
}

/// The reply that a message is, if it is one.
fn reply_of(message: Message<'_>) -> Option<Reply<'_>>
    ensures found { IfSome result (λ reply. content_of message.entry ≡ Answers (answered_of reply)) }
    ensures refused { IfNone result ((answered : Answered) → Answers answered ≡ content_of message.entry → ⊥) }
{
    match message {
        Message::Reply(reply) => Some(reply),
        Message::Request(_) => None,
        Message::Cancel(_) => None,
        Message::Locate(_) => None,
        Message::CloseConnection => None,
        Message::MessageError => None,
    }
}

/// What a reply with the number says; none where it doesn't say that it is one.
pub(crate) fn read_answer(
    giop: &Giop,
    alloc: Global,
    id: u32,
    reply: &SentReply,
) -> Result<Option<ReplyBody>, AllocError>
    ensures found { IfOk result (λ o. IfSome o (λ answer. Says reply.now (Answers (answer_of answer)))) }
    ensures id { IfOk result (λ o. IfSome o (λ answer. answer.id ≡ id)) }
    ensures refused { IfOk result (λ o. IfNone o ((answered : Answered)
        → Says reply.now (Answers answered) → answered.id ≡ id → ⊥)) }
{
    let head = reply.head();
    let message = match giop.read_whole(alloc, &head, reply.octets())? {
        Some(message) => message,
        None => return Ok(None),
    };
    let said = match reply_of(message) {
        Some(said) => said,
        None => return Ok(None),
    };
    if said.id != id {
        return Ok(None);
    }
    Ok(Some(ReplyBody {
        id: said.id,
        status: said.status,
        order: said.order,
        body_at: said.body_at,
        body: Vec::from_slice(alloc, said.octets)?,
    }))
}
