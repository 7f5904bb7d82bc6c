//! The two sides of a connection on which calls wait.

ghost use Rattle.std.specs.Prelude.{◌≡◌, None, false};

use crate::ahead::Ahead;
use crate::listener::Closing;
use crate::moving::write_now;
use crate::tally::Tally;
use iiop_broker::{Failed, Input, Output};
use std::io::{Read, Write};
use std::net::{OpenStream, Shutdown};

/// A side of a connection, whose messages are counted. It tells nothing of the octets: what a socket
/// brings and takes no contract says.
#[derive(Drop)]
pub struct Side<S> {
    stream: S,
    ahead: Ahead,
    tally: Tally,
    failed: bool,
    is_shut: bool,
}

impl<S> Side<S> {
    pub(crate) fn new(stream: S) -> Side<S>
        ensures { result.failed ≡ false }
    {
        Side {
            stream,
            ahead: Ahead::new(),
            tally: Tally::new(),
            failed: false,
            is_shut: false,
        }
    }

    pub(crate) fn tally(&self) -> &Tally {
        &self.tally
    }
}

impl<S: Read> Input for Side<S> {
    ghost left = { λ side. None };

    ghost failure = { λ side. side.failed };

    fn read(&mut self, buffer: &mut [u8]) -> Result<usize, Failed> {
        match self.ahead.read(&mut self.stream, buffer, &mut self.tally) {
            Ok(Some(n)) => Ok(n),
            Ok(None) | Err(_) => {
                self.failed = true;
                Err(Failed)
            }
        }
    }
}

impl<S: Write> Output for Side<S> {
    ghost written = { λ side. None };

    ghost failure = { λ side. side.failed };

    fn write(&mut self, octets: &[u8]) -> Result<usize, Failed> {
        match write_now(&mut self.stream, octets, &mut self.tally) {
            Ok(Some(n)) => Ok(n),
            Ok(None) | Err(_) => {
                self.failed = true;
                Err(Failed)
            }
        }
    }
}

impl<S: Write + OpenStream> Closing for Side<S> {
    ghost shut = { λ side. side.is_shut };

    fn shut(&mut self) {
        let _ = self.stream.shutdown(Shutdown::Write);
        self.is_shut = true;
    }
}
