//! The two sides of a connection that was dialled. They tell nothing of the octets: what a socket
//! brings and takes no contract says.

ghost use Rattle.std.specs.Prelude.{◌≡◌, ◌≤◌, length, IfOk, None, false};

use crate::deadline::Deadline;
use iiop_broker::{Failed, Input, Output};
use std::io::{ErrorKind, Read, Write};
use std::net::OpenStream;
use std::time::Clock;

/// A call that a signal ends is made so often at most.
const TRIES: u32 = 100;

/// What a server says, read before its time has passed.
#[derive(Drop)]
pub struct DialledReader<'r, R: Clock, S> {
    stream: S,
    deadline: Deadline<'r, R>,
    failed: bool,
}

/// What a server is said, written before its time has passed.
#[derive(Drop)]
pub struct DialledWriter<'r, R: Clock, S> {
    stream: S,
    deadline: Deadline<'r, R>,
    failed: bool,
}

impl<'r, R: Clock, S: Drop> DialledReader<'r, R, S> {
    pub(crate) fn new(stream: S, deadline: Deadline<'r, R>) -> DialledReader<'r, R, S>
        ensures { result.failed ≡ false }
    {
        DialledReader {
            stream,
            deadline,
            failed: false,
        }
    }

    /// The stream, where no call has failed.
    pub(crate) fn sound(self) -> Option<S> {
        if self.failed { None } else { Some(self.stream) }
    }
}

impl<'r, R: Clock, S: Drop> DialledWriter<'r, R, S> {
    pub(crate) fn new(stream: S, deadline: Deadline<'r, R>) -> DialledWriter<'r, R, S>
        ensures { result.failed ≡ false }
    {
        DialledWriter {
            stream,
            deadline,
            failed: false,
        }
    }

    /// The stream, where no call has failed.
    pub(crate) fn sound(self) -> Option<S> {
        if self.failed { None } else { Some(self.stream) }
    }
}

/// Reads before the time has passed.
fn read_within<R: Clock, S: Read + OpenStream>(
    stream: &mut S,
    deadline: &Deadline<'_, R>,
    buffer: &mut [u8],
) -> Result<usize, Failed>
    ensures room { length buffer.new ≡ length buffer.old }
    ensures within { IfOk result (λ n. n ≤ length buffer.old) }
{
    for _ in 0..TRIES {
        let Some(left) = deadline.left() else {
            return Err(Failed);
        };
        if stream.set_read_timeout(Some(left)).is_err() {
            return Err(Failed);
        }
        match stream.read(buffer) {
            Ok(n) => return Ok(n),
            Err(error) if error.kind() == ErrorKind::Interrupted => {}
            Err(_) => return Err(Failed),
        }
    }
    Err(Failed)
}

/// Writes what is taken before the time has passed.
fn write_within<R: Clock, S: Write + OpenStream>(
    stream: &mut S,
    deadline: &Deadline<'_, R>,
    octets: &[u8],
) -> Result<usize, Failed>
    ensures within { IfOk result (λ n. n ≤ length octets.now) }
{
    for _ in 0..TRIES {
        let Some(left) = deadline.left() else {
            return Err(Failed);
        };
        if stream.set_write_timeout(Some(left)).is_err() {
            return Err(Failed);
        }
        match stream.write(octets) {
            Ok(n) => return Ok(n),
            Err(error) if error.kind() == ErrorKind::Interrupted => {}
            Err(_) => return Err(Failed),
        }
    }
    Err(Failed)
}

impl<'r, R: Clock, S: Read + OpenStream> Input for DialledReader<'r, R, S> {
    ghost left = { λ reader. None };

    ghost failure = { λ reader. reader.failed };

    fn read(&mut self, buffer: &mut [u8]) -> Result<usize, Failed> {
        match read_within(&mut self.stream, &self.deadline, buffer) {
            Ok(n) => Ok(n),
            Err(_) => {
                self.failed = true;
                Err(Failed)
            }
        }
    }
}

impl<'r, R: Clock, S: Write + OpenStream> Output for DialledWriter<'r, R, S> {
    ghost written = { λ writer. None };

    ghost failure = { λ writer. writer.failed };

    fn write(&mut self, octets: &[u8]) -> Result<usize, Failed> {
        match write_within(&mut self.stream, &self.deadline, octets) {
            Ok(n) => {
                if n == 0 && !octets.is_empty() {
                    self.failed = true;
                }
                Ok(n)
            }
            Err(_) => {
                self.failed = true;
                Err(Failed)
            }
        }
    }
}
