//! What a stream says.

ghost use Rattle.std.specs.Prelude.{◌≡◌, ◌≤◌, [], length, drop, None, IfOk, IsTrue, ◌↔◌};
ghost use Rattle.giop_messages.specs.Heard.{Ends, Waits, heard, heard_from, heard_more, no_number};
ghost use Rattle.giop_messages.specs.ReplyStreamsRoom.{wanted as wanted_in};
ghost use Rattle.giop_messages.specs.Told.{told};

use crate::FramingFault;
use crate::reply_streams::head::wanted;
use crate::reply_streams::reply::SentReply;
use crate::reply_streams::turn::{Turn, take_turn};
use std::alloc::{AllocError, Global};

/// A number that no request has, since theirs have 32 bits.
const NO_NUMBER: u64 = 1 << 32;

/// A stream that hasn't said its reply yet.
#[derive(Drop)]
pub struct ReplyStream {
    /// The pieces of the reply that have come.
    pub run: Option<SentReply>,
    /// The octets behind the messages that have come.
    pub rest: Vec<u8>,
}

/// What a stream says to a client that awaits the reply to a request.
#[derive(Drop)]
pub enum Heard {
    /// Nothing yet.
    Waits(ReplyStream),
    /// The reply.
    Replies(SentReply),
    /// No message of GIOP stands where one should.
    Breaks(FramingFault),
    /// The server closes the connection (CloseConnection).
    Ends,
    /// A message that was sent was none to the server (MessageError).
    Refuses,
}

impl ReplyStream {
    /// A stream that has said nothing. Takes no memory.
    pub fn new(alloc: Global) -> ReplyStream
        ensures run { result.run ≡ None }
        ensures rest { result.rest.items ≡ [] }
    {
        ReplyStream {
            run: None,
            rest: Vec::new(alloc),
        }
    }

    /// What the stream says to a client that awaits the reply to the request of the number, when
    /// these octets come behind those that came before.
    ///
    /// # Errors
    /// Want of memory.
    pub fn hear(self, alloc: Global, id: u32, octets: &[u8]) -> Result<Heard, AllocError>
        ensures { IfOk result (λ h. told h ≡ heard_more id (Waits self.run self.rest.items) octets.now) }
    {
        let mut rest = self.rest;
        rest.extend_from_slice(octets)?;
        hear_all(alloc, u64::from(id), self.run, rest)
    }

    /// How many octets the message at the front still wants, or its head; 0 where no message stands there.
    /// Who reads no more at a time reads nothing that stands behind the reply.
    pub fn wanted(&self) -> usize
        ensures { result ≡ wanted_in self.now.rest.items }
    {
        wanted(self.rest.as_slice())
    }
}

/// Whether a stream closes the connection (CloseConnection), whatever replies stand before that.
///
/// # Errors
/// Want of memory.
pub fn closes(alloc: Global, octets: &[u8]) -> Result<bool, AllocError>
    ensures { IfOk result (λ b. IsTrue b ↔ (heard no_number octets.now ≡ Ends)) }
{
    let mut all = Vec::new(alloc);
    all.extend_from_slice(octets)?;
    match hear_all(alloc, NO_NUMBER, None, all)? {
        Heard::Ends => Ok(true),
        Heard::Waits(_) | Heard::Replies(_) | Heard::Breaks(_) | Heard::Refuses => Ok(false),
    }
}

/// Takes octets away at the front.
fn remove_front(octets: &mut Vec<u8>, n: usize)
    requires { n ≤ length octets.old.items }
    ensures { octets.new.items ≡ drop n octets.old.items }
{
    let len = octets.len();
    octets.as_mut_slice().copy_within(n..len, 0);
    octets.truncate(len - n);
}

/// A stream so many octets of which are seen to.
fn stream_after(run: Option<SentReply>, mut octets: Vec<u8>, seen: usize) -> ReplyStream
    requires { seen ≤ length octets.items }
    ensures run { result.run ≡ run }
    ensures rest { result.rest.items ≡ drop seen octets.items }
{
    if seen > 0 {
        remove_front(&mut octets, seen);
    }
    ReplyStream { run, rest: octets }
}

/// What all messages in the octets say while a run may be open.
fn hear_all(
    alloc: Global,
    id: u64,
    run: Option<SentReply>,
    octets: Vec<u8>,
) -> Result<Heard, AllocError>
    ensures { IfOk result (λ h. told h ≡ heard_from id run octets.items) }
{
    let mut held = run;
    let mut at = 0;
    while at < octets.len() {
        match take_turn(alloc, id, held, octets.as_slice().split_at(at).1)? {
            Turn::Waits(run) => return Ok(Heard::Waits(stream_after(run, octets, at))),
            Turn::Passes { run, len } => {
                held = run;
                at += len;
            }
            Turn::Goes { run, len } => {
                held = Some(run);
                at += len;
            }
            Turn::Replies(reply) => return Ok(Heard::Replies(reply)),
            Turn::Breaks(fault) => return Ok(Heard::Breaks(fault)),
            Turn::Ends => return Ok(Heard::Ends),
            Turn::Refuses => return Ok(Heard::Refuses),
        }
    }
    Ok(Heard::Waits(stream_after(held, octets, at)))
}
