//! Whole messages read.

ghost use Rattle.std.specs.Prelude.{◌≡◌, ℕ, false, IfOk, IfSome, IfNone};
ghost use Rattle.giop_messages.specs.declared.head.MessageKind.TheVariants as kinds;
ghost use Rattle.giop_messages.specs.Runs.{IsMessage};
ghost use Rattle.giop_messages.specs.Messages.{Answered, Asked, Content, Sought, IsCancel, IsLocate, IsReply, IsRequest, IsWhole, Says, answered_of, asked_of, content_of, sought_of};

use crate::giop_calls::Giop;
use crate::reading::header::{cancel_header, locate_header, reply_header, request_header};
use crate::reading::key::{copy, key_of};
use crate::reading::place::body_behind;
use giop_messages::{Head, Locate, Message, MessageKind, Reply, Request};
use giop_types::{
    CANCEL_REQUEST_HEADER, GiopTypes, LOCATE_REQUEST_HEADER, REPLY_HEADER, REQUEST_HEADER,
    TapeFault,
};
use std::alloc::{AllocError, Global};

/// A whole message that is read: its head and its octets, and the types by which it is read.
#[derive(Clone, Copy)]
pub(crate) struct Reading<'r, 'b> {
    pub(crate) types: &'r GiopTypes,
    pub(crate) alloc: Global,
    pub(crate) head: &'r Head,
    pub(crate) octets: &'b [u8],
}

impl<'r, 'b> Reading<'r, 'b> {
    /// The number of a request that is given up.
    fn cancel(&self) -> Result<Option<u32>, AllocError>
        requires { IsWhole kinds.CancelRequest self.now.octets.now self.now.head.now }
        ensures found { IfOk result (λ o. IfSome o (λ id. IsCancel self.now.octets.now id)) }
        ensures refused { IfOk result (λ o. IfNone o ((id : ℕ) → IsCancel self.now.octets.now id → ⊥)) }
    {
        match self.header_tape(CANCEL_REQUEST_HEADER)? {
            Some((tape, _)) => Ok(cancel_header(tape.as_slice())),
            None => Ok(None),
        }
    }

    /// A reply.
    fn reply(&self) -> Result<Option<Reply<'b>>, AllocError>
        requires { IsWhole kinds.Reply self.now.octets.now self.now.head.now }
        ensures found { IfOk result (λ o. IfSome o (λ reply. IsReply self.now.octets.now (answered_of reply))) }
        ensures refused { IfOk result (λ o. IfNone o
            ((answered : Answered) → IsReply self.now.octets.now answered → ⊥)) }
    {
        let (tape, stop) = match self.header_tape(REPLY_HEADER)? {
            Some(found) => found,
            None => return Ok(None),
        };
        let Some(header) = reply_header(tape.as_slice()) else {
            return Ok(None);
        };
        let (body_at, body) = body_behind(self.octets, stop);
        Ok(Some(Reply {
            id: header.id,
            status: header.status,
            order: self.head.order,
            body_at,
            octets: body,
        }))
    }

    /// A request.
    fn request(&self) -> Result<Option<Request<'b>>, AllocError>
        requires { IsWhole kinds.Request self.now.octets.now self.now.head.now }
        ensures found { IfOk result (λ o. IfSome o (λ request. IsRequest self.now.octets.now (asked_of request))) }
        ensures refused { IfOk result (λ o. IfNone o ((asked : Asked) → IsRequest self.now.octets.now asked → ⊥)) }
    {
        let (tape, stop) = match self.header_tape(REQUEST_HEADER)? {
            Some(found) => found,
            None => return Ok(None),
        };
        let header = match request_header(self.alloc, tape.as_slice()) {
            Ok(header) => header,
            Err(fault) => match fault {
                TapeFault::NoMemory => return Err(AllocError),
                _ => return Ok(None),
            },
        };
        let key = key_of(self.types, self.alloc, header.target)?;
        let operation = copy(self.alloc, header.operation)?;
        let (body_at, body) = body_behind(self.octets, stop);
        Ok(Some(Request {
            id: header.id,
            flags: header.flags,
            key,
            operation,
            order: self.head.order,
            body_at,
            octets: body,
        }))
    }

    /// A locate request.
    fn locate(&self) -> Result<Option<Locate>, AllocError>
        requires { IsWhole kinds.LocateRequest self.now.octets.now self.now.head.now }
        ensures found { IfOk result (λ o. IfSome o (λ locate. IsLocate self.now.octets.now (sought_of locate))) }
        ensures refused { IfOk result (λ o. IfNone o ((sought : Sought) → IsLocate self.now.octets.now sought → ⊥)) }
    {
        let tape = match self.header_tape(LOCATE_REQUEST_HEADER)? {
            Some((tape, _)) => tape,
            None => return Ok(None),
        };
        let header = match locate_header(self.alloc, tape.as_slice()) {
            Ok(header) => header,
            Err(fault) => match fault {
                TapeFault::NoMemory => return Err(AllocError),
                _ => return Ok(None),
            },
        };
        let key = key_of(self.types, self.alloc, header.target)?;
        Ok(Some(Locate {
            id: header.id,
            key,
            order: self.head.order,
        }))
    }
}

impl Giop {
    /// What the octets of a whole message say, whose head this is; none where they say nothing.
    ///
    /// # Errors
    /// Want of memory.
    pub fn read_whole<'b>(
        &self,
        alloc: Global,
        head: &Head,
        octets: &'b [u8],
    ) -> Result<Option<Message<'b>>, AllocError>
        requires message { IsMessage head.now octets.now }
        requires alone { head.now.goes_on ≡ false }
        ensures found { IfOk result (λ o. IfSome o (λ message. Says octets.now (content_of message))) }
        ensures refused { IfOk result (λ o. IfNone o ((content : Content) → Says octets.now content → ⊥)) }
    {
        let reading = Reading {
            types: &self.types,
            alloc,
            head,
            octets,
        };
        match head.kind {
            MessageKind::Request => match reading.request()? {
                Some(said) => Ok(Some(Message::Request(said))),
                None => Ok(None),
            },
            MessageKind::Reply => match reading.reply()? {
                Some(said) => Ok(Some(Message::Reply(said))),
                None => Ok(None),
            },
            MessageKind::CancelRequest => match reading.cancel()? {
                Some(said) => Ok(Some(Message::Cancel(said))),
                None => Ok(None),
            },
            MessageKind::LocateRequest => match reading.locate()? {
                Some(said) => Ok(Some(Message::Locate(said))),
                None => Ok(None),
            },
            MessageKind::CloseConnection => Ok(Some(Message::CloseConnection)),
            MessageKind::MessageError => Ok(Some(Message::MessageError)),
            MessageKind::LocateReply | MessageKind::Fragment => Ok(None),
        }
    }
}
