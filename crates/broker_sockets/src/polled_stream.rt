//! A connection by TCP on which no call waits.

ghost use Rattle.std.specs.Prelude.{◌≡◌, ◌≤◌, length, None, false, IfOk, IfSome};
ghost use Rattle.iiop_broker.specs.Outcomes.{ends};

use crate::ahead::Ahead;
use crate::moving::write_now;
use crate::tally::Tally;
use broker_loop::Connection;
use iiop_broker::Failed;
use mio::net::TcpStream;
use std::net::Shutdown;

/// A connection of this machine's. It tells nothing of the octets that it carries.
#[derive(Drop)]
pub struct PolledStream {
    stream: TcpStream,
    ahead: Ahead,
    read: Tally,
    written: Tally,
    unread: bool,
    unwritten: bool,
    is_shut: bool,
}

impl PolledStream {
    pub(crate) fn new(stream: TcpStream) -> PolledStream
        ensures unread { result.unread ≡ false }
        ensures unwritten { result.unwritten ≡ false }
    {
        PolledStream {
            stream,
            ahead: Ahead::new(),
            read: Tally::new(),
            written: Tally::new(),
            unread: false,
            unwritten: false,
            is_shut: false,
        }
    }

    /// The socket, and the messages that were read and written.
    pub(crate) fn into_parts(self) -> (TcpStream, Tally, Tally) {
        (self.stream, self.read, self.written)
    }
}

impl Connection for PolledStream {
    ghost told = { λ one. ends None None one.unread one.unwritten };

    ghost trace = { λ one. None };

    ghost shut = { λ one. one.is_shut };

    fn read(&mut self, buffer: &mut [u8]) -> Result<Option<usize>, Failed> {
        let got = self.ahead.read(&mut self.stream, buffer, &mut self.read);
        if got.is_err() {
            self.unread = true;
        }
        got
    }

    fn write(&mut self, octets: &[u8]) -> Result<Option<usize>, Failed> {
        let took = write_now(&mut self.stream, octets, &mut self.written);
        if took.is_err() {
            self.unwritten = true;
        }
        took
    }

    fn shut(&mut self) {
        let _ = self.stream.shutdown(Shutdown::Write);
        self.is_shut = true;
    }
}
