//! Octets read ahead.

ghost use Rattle.std.specs.Prelude.{◌≡◌, ◌≤◌, length, IfOk, IfSome};

use crate::moving::read_now;
use crate::tally::Tally;
use iiop_broker::Failed;
use std::io::Read;

/// So many octets are read ahead at most.
const AHEAD: usize = 1_024;

/// Octets that a socket gave behind those that were asked for: a small message needs one call.
#[derive(Drop)]
pub(crate) struct Ahead {
    octets: [u8; AHEAD],
    at: usize,
    stop: usize,
    ghost within: { at ≤ stop },
    ghost few: { stop ≤ 1024 },
}

impl Ahead {
    pub(crate) fn new() -> Ahead {
        Ahead {
            octets: [0; AHEAD],
            at: 0,
            stop: 0,
        }
    }

    /// Gives as many as there are and the buffer has room for.
    fn give(&mut self, buffer: &mut [u8]) -> usize
        ensures room { length buffer.new ≡ length buffer.old }
        ensures within { result ≤ length buffer.old }
    {
        let n = (self.stop - self.at).min(buffer.len());
        buffer[..n].copy_from_slice(&self.octets[self.at..self.at + n]);
        self.at += n;
        n
    }

    /// Reads what is there, and more ahead where little is asked for; None where a call would wait.
    fn read_on<S: Read>(
        &mut self,
        stream: &mut S,
        buffer: &mut [u8],
    ) -> Result<Option<usize>, Failed>
        ensures room { length buffer.new ≡ length buffer.old }
        ensures within { IfOk result (λ got. IfSome got (λ n. n ≤ length buffer.old)) }
    {
        if self.at < self.stop {
            return Ok(Some(self.give(buffer)));
        }
        if buffer.len() >= AHEAD {
            return read_now(stream, buffer);
        }
        let Some(n) = read_now(stream, &mut self.octets)? else {
            return Ok(None);
        };
        self.at = 0;
        self.stop = n;
        Ok(Some(self.give(buffer)))
    }

    /// The same, and counts the messages of what it gives.
    pub(crate) fn read<S: Read>(
        &mut self,
        stream: &mut S,
        buffer: &mut [u8],
        tally: &mut Tally,
    ) -> Result<Option<usize>, Failed>
        ensures room { length buffer.new ≡ length buffer.old }
        ensures within { IfOk result (λ got. IfSome got (λ n. n ≤ length buffer.old)) }
    {
        let got = self.read_on(stream, buffer)?;
        if let Some(n) = got {
            tally.see(buffer.split_at(n).0);
        }
        Ok(got)
    }
}
