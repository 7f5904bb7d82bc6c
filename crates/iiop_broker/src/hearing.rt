//! All messages of a stream that have come served.

ghost use Rattle.std.specs.Prelude.{◌≡◌, ◌≤◌, ◌++◌, length, drop, IfOk, OnErr, OnOk};
ghost use Rattle.broker_answers.specs.Streams.{Open, cut};
ghost use Rattle.broker_answers.specs.Servants.{acts};
ghost use Rattle.iiop_broker.specs.Kept.{stream_of};
ghost use Rattle.iiop_broker.specs.inner.Progress.{IsHeard, Stopped};

use crate::front::Turn;
use crate::kept::Kept;
use crate::server::Server;
use broker_answers::Servant;
use giop_messages::Run;
use std::alloc::AllocError;

/// The answers, joined, and what is kept of the connection.
#[derive(Drop)]
pub(crate) struct Heard {
    pub(crate) answer: Vec<u8>,
    pub(crate) kept: Kept,
}

/// Takes octets away at the front.
fn remove_front(octets: &mut Vec<u8>, n: usize)
    requires { n ≤ length octets.old.items }
    ensures { octets.new.items ≡ drop n octets.old.items }
{
    let len = octets.len();
    octets.as_mut_slice().copy_within(n..len, 0);
    octets.truncate(len - n);
}

/// What is kept of an open stream, so many octets of which are seen to.
fn kept_behind(run: Option<Run>, mut octets: Vec<u8>, seen: usize) -> Kept
    requires { seen ≤ length octets.items }
    ensures { stream_of result ≡ Open run (drop seen octets.items) }
{
    if seen == 0 {
        return Kept::Open { run, rest: octets };
    }
    remove_front(&mut octets, seen);
    Kept::Open { run, rest: octets }
}

/// Adds an answer behind others. The first isn't copied.
fn add_answer(answers: &mut Vec<u8>, more: Vec<u8>) -> Result<(), AllocError>
    ensures { OnOk result (answers.new.items ≡ answers.old.items ++ more.items) }
{
    if answers.is_empty() {
        *answers = more;
        return Ok(());
    }
    answers.extend_from_slice(more.as_slice())?;
    Ok(())
}

impl<S: Servant> Server<S> {
    /// Serves all messages at the front of a stream, and keeps what is behind them.
    ///
    /// # Errors
    /// Want of memory: the servant was given the calls of some messages.
    pub(crate) fn hear(&mut self, run: Option<Run>, octets: Vec<u8>) -> Result<Heard, AllocError>
        ensures heard { IfOk result (λ heard. IsHeard (acts S.says S.after) self.old.service (cut run octets.items)
            self.old.servant heard.answer.items heard.kept self.new.servant) }
        ensures given_up { OnErr result (Stopped (acts S.says S.after) self.old.service (cut run octets.items).raws
            self.old.servant self.new.servant) }
        ensures same { self.new.service ≡ self.old.service }
    {
        let mut answer = Vec::new(self.alloc);
        let mut open = run;
        let mut at = 0;
        while at < octets.len() {
            match self.take_turn(open, octets.as_slice().split_at(at).1)? {
                Turn::Waits(run) => {
                    let kept = kept_behind(run, octets, at);
                    return Ok(Heard { answer, kept });
                }
                Turn::Goes {
                    run,
                    len,
                    answer: more,
                } => {
                    add_answer(&mut answer, more)?;
                    open = run;
                    at += len;
                }
                Turn::Ends(more) => {
                    add_answer(&mut answer, more)?;
                    return Ok(Heard {
                        answer,
                        kept: Kept::Closed,
                    });
                }
            }
        }
        let kept = kept_behind(open, octets, at);
        Ok(Heard { answer, kept })
    }
}
