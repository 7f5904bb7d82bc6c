//! Replies awaited.

ghost use Rattle.call_client.specs.Outcomes.{IsOutcome};
ghost use Rattle.call_client.specs.inner.Replies.{IsAnswerIn};

use crate::answer::{ReplyBody, read_answer};
use crate::fault::CallFault;
use giop::Giop;
use giop_messages::reply_streams::{Heard, ReplyStream, SentReply};
use iiop_broker::{Input, read_within};
use std::alloc::Global;

/// So many octets are read at a time at most.
const BUFFER_LEN: usize = 4096;

/// The answer that a reply says.
fn answer_in(giop: &Giop, alloc: Global, id: u32, reply: &SentReply) -> Result<ReplyBody, CallFault>
    ensures { IsAnswerIn id reply.now result }
{
    match read_answer(giop, alloc, id, reply) {
        Ok(Some(answer)) => Ok(answer),
        Ok(None) => Err(CallFault::BadReply),
        Err(_) => Err(CallFault::NoMemory),
    }
}

/// Reads until the reply to the request of the number has come, whatever comes before it: replies
/// with other numbers are passed over, and the fragments of the reply joined. Nothing is read that
/// stands behind it. So many reads may give octets.
///
/// # Errors
/// `BadMessage`, `BadReply`, `MessageError` and `CloseConnection` by what came before the reply, or
/// instead of it. `ReadFailed` where a read failed, `EndOfStream` where all was read, `ReadLimit`
/// where as many reads gave octets as may. Want of memory.
pub fn await_reply<I: Input>(
    giop: &Giop,
    alloc: Global,
    id: u32,
    reader: &mut I,
    reads: u64,
) -> Result<ReplyBody, CallFault>
    ensures { IsOutcome id reads (I.left reader.old) result (I.left reader.new) (I.failure reader.new) }
{
    let mut buffer = [0u8; BUFFER_LEN];
    let mut stream = ReplyStream::new(alloc);
    let mut count: u64 = 0;
    while count < reads {
        let room = stream.wanted().clamp(1, BUFFER_LEN);
        let n = match read_within(reader, &mut buffer, room) {
            Ok(0) => return Err(CallFault::EndOfStream),
            Ok(n) => n,
            Err(_) => return Err(CallFault::ReadFailed),
        };
        match stream.hear(alloc, id, buffer.as_slice().split_at(n).0) {
            Ok(Heard::Waits(more)) => stream = more,
            Ok(Heard::Replies(reply)) => return answer_in(giop, alloc, id, &reply),
            Ok(Heard::Breaks(fault)) => return Err(CallFault::BadMessage(fault)),
            Ok(Heard::Ends) => return Err(CallFault::CloseConnection),
            Ok(Heard::Refuses) => return Err(CallFault::MessageError),
            Err(_) => return Err(CallFault::NoMemory),
        }
        count += 1;
    }
    Err(CallFault::ReadLimit)
}
