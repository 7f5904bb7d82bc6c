//! One piece or message served.

ghost use Rattle.std.specs.Prelude.{◌≡◌, true, IfOk, OnErr};
ghost use Rattle.giop_messages.specs.Framing.{is_fragment};
ghost use Rattle.giop_messages.specs.Runs.{IsFrame};
ghost use Rattle.broker_answers.specs.Streams.{cut};
ghost use Rattle.broker_answers.specs.Servants.{acts};
ghost use Rattle.iiop_broker.specs.inner.Progress.{Stopped};
ghost use Rattle.iiop_broker.specs.inner.Turns.{IsTurnOf, IsTurned};

use crate::runs::run_left;
use crate::server::Server;
use broker_answers::{Answer, Servant};
use giop_messages::{Frame, Run, frame_in};
use std::alloc::AllocError;

/// What becomes of a stream by what stands at its front.
#[derive(Drop)]
pub(crate) enum Turn {
    /// Nothing: more octets have to come.
    Waits(Option<Run>),
    /// So many octets are seen to; their answer, if they are a message that has one.
    Goes {
        run: Option<Run>,
        len: usize,
        answer: Vec<u8>,
    },
    /// Nothing more is heard. The last answer.
    Ends(Vec<u8>),
}

/// What becomes of a stream by the answer to a message.
fn turned(answer: Answer, run: Option<Run>, len: usize) -> Turn
    ensures { IsTurnOf answer run len result }
{
    if answer.closes {
        Turn::Ends(answer.octets)
    } else {
        Turn::Goes {
            run,
            len,
            answer: answer.octets,
        }
    }
}

impl<S: Servant> Server<S> {
    /// Takes the next piece of a run. With the last one the request that they are is served.
    fn take_fragment(
        &mut self,
        run: Option<Run>,
        frame: &Frame,
        octets: &[u8],
    ) -> Result<Turn, AllocError>
        requires placed { IsFrame run octets.now frame.now }
        requires fragment { is_fragment frame.now.head.kind ≡ true }
        ensures turned { IfOk result (λ turn.
            IsTurned (acts S.says S.after) self.old.service run octets.now self.old.servant turn self.new.servant) }
        ensures given_up { OnErr result (Stopped (acts S.says S.after) self.old.service (cut run octets.now).raws
            self.old.servant self.new.servant) }
        ensures same { self.new.service ≡ self.old.service }
    {
        let Some(mut whole) = run else {
            unreachable!();
        };
        whole.add(octets.split_at(frame.len).0)?;
        if frame.head.goes_on {
            return Ok(Turn::Goes {
                run: Some(whole),
                len: frame.len,
                answer: Vec::new(self.alloc),
            });
        }
        let head = whole.head();
        match self
            .service
            .serve(self.alloc, &mut self.servant, &head, whole.octets())
        {
            Ok(answer) => Ok(turned(answer, None, frame.len)),
            Err(error) => Err(error),
        }
    }

    /// Serves what stands at the front of a stream while a run may be open.
    ///
    /// # Errors
    /// Want of memory: the servant was given the message's call before, or it wasn't.
    pub(crate) fn take_turn(&mut self, run: Option<Run>, octets: &[u8]) -> Result<Turn, AllocError>
        ensures turned { IfOk result (λ turn.
            IsTurned (acts S.says S.after) self.old.service run octets.now self.old.servant turn self.new.servant) }
        ensures given_up { OnErr result (Stopped (acts S.says S.after) self.old.service (cut run octets.now).raws
            self.old.servant self.new.servant) }
        ensures same { self.new.service ≡ self.old.service }
    {
        let frame = match frame_in(run.as_ref(), octets) {
            Ok(Some(frame)) => frame,
            Ok(None) => return Ok(Turn::Waits(run)),
            Err(_) => {
                let answer = self.service.refuse(self.alloc)?;
                return Ok(Turn::Ends(answer.octets));
            }
        };
        if frame.head.is_fragment() {
            return self.take_fragment(run, &frame, octets);
        }
        let piece = octets.split_at(frame.len).0;
        if frame.head.goes_on {
            let begun = Run::begin(self.alloc, piece)?;
            let answer = Vec::new(self.alloc);
            return Ok(Turn::Goes {
                run: Some(begun),
                len: frame.len,
                answer,
            });
        }
        let left = run_left(run, piece);
        match self
            .service
            .serve(self.alloc, &mut self.servant, &frame.head, piece)
        {
            Ok(answer) => Ok(turned(answer, left, frame.len)),
            Err(error) => Err(error),
        }
    }
}
