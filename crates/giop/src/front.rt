//! What stands at the front of a stream.

ghost use Rattle.std.specs.Prelude.{option_map, None, IfOk, IfErr};
ghost use Rattle.giop_messages.specs.Runs.{IsFrame};
ghost use Rattle.giop.specs.Fronts.{IsFound, IsRefused};

use crate::giop_calls::Giop;
use giop_messages::{Frame, GiopFault, Message, Run, frame_in, message_id};
use std::alloc::Global;

/// What stands at the front of a stream.
#[derive(Drop)]
pub enum Front<'b> {
    /// Not yet a whole message.
    More,
    /// A whole message.
    Whole {
        message: Message<'b>,
        /// How many octets it has.
        taken: usize,
    },
    /// A piece of a request that comes in fragments.
    Part {
        /// The number of the request.
        id: u32,
        /// It is the first of them, with which a run begins; else one that is added to the run.
        first: bool,
        /// No more of them follow.
        last: bool,
        /// How many octets it has.
        taken: usize,
    },
}

impl Giop {
    /// A message, or a piece of one.
    fn read_frame<'b>(
        &self,
        alloc: Global,
        run: Option<&Run>,
        frame: &Frame,
        octets: &'b [u8],
    ) -> Result<Front<'b>, GiopFault>
        requires { IsFrame (option_map (λ r. r.now) run) octets.now frame.now }
        ensures found { IfOk result (λ front. IsFound (option_map (λ r. r.now) run.entry) octets.now front) }
        ensures refused { IfErr result (λ fault. IsRefused (option_map (λ r. r.now) run.entry) octets.now fault) }
    {
        let piece = octets.split_at(frame.len).0;
        let is_fragment = frame.head.is_fragment();
        if is_fragment || frame.head.goes_on {
            return Ok(Front::Part {
                id: message_id(piece),
                first: !is_fragment,
                last: !frame.head.goes_on,
                taken: frame.len,
            });
        }
        match self.read_whole(alloc, &frame.head, piece)? {
            Some(message) => Ok(Front::Whole {
                message,
                taken: frame.len,
            }),
            None => Err(GiopFault::BadHead),
        }
    }

    /// What stands at the front of a stream.
    ///
    /// # Errors
    /// As `read_message_in`.
    pub fn read_message<'b>(&self, alloc: Global, octets: &'b [u8]) -> Result<Front<'b>, GiopFault>
        ensures found { IfOk result (λ front. IsFound None octets.now front) }
        ensures refused { IfErr result (λ fault. IsRefused None octets.now fault) }
    {
        self.read_message_in(alloc, None, octets)
    }

    /// What stands at the front of a stream while a run of fragments may be open. A piece is to
    /// be given to `Run::begin` where it is the first, else to `Run::add`.
    ///
    /// # Errors
    /// What is wrong with the head at the front, as soon as its 12 octets are there: `NotGiop`,
    /// `Version`, `TooLong`, `BadHead`, then `BadFragment` where a rule of fragments is broken.
    /// `BadHead` also where a whole message says nothing. Want of memory.
    pub fn read_message_in<'b>(
        &self,
        alloc: Global,
        run: Option<&Run>,
        octets: &'b [u8],
    ) -> Result<Front<'b>, GiopFault>
        ensures found { IfOk result (λ front. IsFound (option_map (λ r. r.now) run.entry) octets.now front) }
        ensures refused { IfErr result (λ fault. IsRefused (option_map (λ r. r.now) run.entry) octets.now fault) }
    {
        match frame_in(run, octets) {
            Ok(Some(frame)) => self.read_frame(alloc, run, &frame, octets),
            Ok(None) => Ok(Front::More),
            Err(fault) => Err(GiopFault::from(fault)),
        }
    }
}
