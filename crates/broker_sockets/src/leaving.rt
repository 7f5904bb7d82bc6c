//! Sockets that are let go of.

ghost use Rattle.std.specs.Prelude.{◌≡◌, ◌+◌, ◌<◌, ◌≤◌, length, None};
ghost use Rattle.broker_sockets.specs.Parted.{counted, parted};

use crate::moving::read_now;
use crate::partings::{Limits, Parting, Skip, part};
use iiop_broker::Failed;
use mio::net::TcpStream;
use std::io::{self, Read};
use std::net::{OpenStream, Shutdown};
use std::time::{Clock, Duration, Instant};

/// For how long what still comes is read of a connection: 4 MiB at most, and a second.
pub(crate) const LIMITS: Limits = Limits {
    reads: 64,
    millis: 1000,
};

/// A socket whose side that is written to can be shut.
pub(crate) trait Closable {
    fn shut_writing(&self);
}

impl Closable for TcpStream {
    fn shut_writing(&self) {
        let _ = self.shutdown(Shutdown::Write);
    }
}

/// A socket on which calls wait, though a read for a second at most.
#[derive(Drop)]
struct Waiting<S> {
    stream: S,
}

impl<S: Read> Read for Waiting<S> {
    fn read(&mut self, buf: &mut [u8]) -> io::Result<usize> {
        self.stream.read(buf)
    }
}

impl<S: OpenStream> Closable for Waiting<S> {
    fn shut_writing(&self) {
        let _ = self.stream.shutdown(Shutdown::Write);
    }
}

/// A connection to which nothing more is said.
#[derive(Drop)]
pub(crate) struct Leaving<'r, R: Clock, S> {
    clock: &'r R,
    stream: S,
    is_shut: bool,
    since: Option<Instant>,
    last: Option<Skip>,
    skips: u64,
    late: u64,
}

impl<'r, R: Clock, S> Leaving<'r, R, S> {
    pub(crate) fn new(clock: &'r R, stream: S) -> Leaving<'r, R, S> {
        Leaving {
            clock,
            stream,
            is_shut: false,
            since: None,
            last: None,
            skips: 0,
            late: 0,
        }
    }
}

/// How many milliseconds have passed. A clock that can't be read counts none.
fn millis_since<R: Clock>(clock: &R, since: Option<Instant>) -> u64 {
    match (since, Instant::now(clock)) {
        (Some(since), Ok(now)) => {
            u64::try_from(now.duration_since(since).as_millis()).unwrap_or(u64::MAX)
        }
        _ => 0,
    }
}

/// What a read of some room gave.
fn gave(got: Result<Option<usize>, Failed>) -> Skip {
    match got {
        Ok(Some(0)) => Skip::End,
        Ok(Some(_)) => Skip::Octets,
        Ok(None) => Skip::NotNow,
        Err(_) => Skip::Failed,
    }
}

fn count_on(skip: Skip, skips: u64) -> u64
    requires { skips < 18446744073709551615 }
    ensures { result ≡ counted skip skips }
{
    match skip {
        Skip::Octets => skips + 1,
        Skip::NotNow => skips,
        Skip::End => skips,
        Skip::Failed => skips,
    }
}

impl<'r, R: Clock, S: Read + Closable> Parting for Leaving<'r, R, S> {
    ghost parted = { λ one. parted one.is_shut None one.last one.skips one.late };

    fn shut(&mut self) {
        self.stream.shut_writing();
        self.is_shut = true;
        self.since = Instant::now(self.clock).ok();
        self.last = None;
        self.skips = 0;
        self.late = 0;
    }

    fn skips(&self) -> u64 {
        self.skips
    }

    #[tactic(auto, using(crate::proofs::Untold::gave_nothing))]
    fn skip(&mut self, buffer: &mut [u8]) -> Skip {
        let skip = gave(read_now(&mut self.stream, buffer));
        self.last = Some(skip);
        self.skips = count_on(skip, self.skips);
        skip
    }

    fn is_late(&mut self, least: u64) -> bool {
        self.late = millis_since(self.clock, self.since);
        self.late >= least
    }
}

/// Lets go of a connection on which calls wait. Where no read can be held to a second, nothing is
/// read.
pub(crate) fn let_go<R: Clock, S: OpenStream + Read + Drop>(clock: &R, stream: S) {
    let wait = Duration::from_millis(LIMITS.millis);
    if stream.set_read_timeout(Some(wait)).is_ok() {
        let mut leaving = Leaving::new(clock, Waiting { stream });
        let mut buffer = [0u8; 65_536];
        part(&mut leaving, &mut buffer, LIMITS);
    }
}
