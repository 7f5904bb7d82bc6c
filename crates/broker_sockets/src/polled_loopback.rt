//! Sockets of this machine alone, on which no call waits.

ghost use Rattle.std.specs.Prelude.{◌≡◌, ◌≤◌, ⊤, replicate, true, IfOk, None, OnErr};
ghost use Rattle.broker_sockets.specs.Visits.{untold};

use crate::leaving::{LIMITS, Leaving};
use crate::misses::{Misses, PAUSE};
use crate::moving::TRIES;
use crate::partings::Partings;
use crate::polled_stream::PolledStream;
use crate::totals::Totals;
use broker_loop::{End, Listener, PolledListener};
use iiop_broker::Failed;
use mio::net::{TcpListener, TcpStream};
use mio::{Events, Interest, Poll, Token};
use std::alloc::{AllocError, Global};
use std::io::ErrorKind;
use std::net::{Ipv4Addr, Net, SocketAddr};
use std::time::{Clock, Duration, Instant};

/// As many events are taken at a time: of 64 connections, and of those that wait to come.
const EVENTS: usize = 65;

/// No wait has more milliseconds: so much time is lost at most where an event doesn't come, and so
/// late is it seen that a connection is idle.
const LONGEST_WAIT: u64 = 1000;

/// No wait has more while connections are let go of.
const SHORT_WAIT: u64 = 50;

/// So often those that are let go of when all were served are asked at most.
const LAST_ROUNDS: u32 = 8_192;

/// What is listened on, and what waits until octets may move there.
#[derive(Drop)]
struct Port {
    socket: TcpListener,
    poll: Poll,
}

/// Has events come of what is read and what is written. Without them the longest wait is lost.
fn watch<S: mio::event::Source>(poll: &Poll, source: &mut S) {
    let both = Interest::READABLE | Interest::WRITABLE;
    let _ = poll.registry().register(source, Token(0), both);
}

/// Goes on with those that are let go of. It stands apart since each call has room for what is read.
fn go_on<R: Clock>(leaving: &mut Partings<Leaving<'_, R, TcpStream>>) -> bool {
    let mut buffer = [0u8; 65_536];
    leaving.go_on(&mut buffer, LIMITS)
}

impl Port {
    fn open<R: Net>(net: &R, number: u16) -> Result<Port, Failed> {
        let address = SocketAddr::from((Ipv4Addr::LOCALHOST, number));
        let (Ok(mut socket), Ok(poll)) = (TcpListener::bind(net, address), Poll::new(net)) else {
            return Err(Failed);
        };
        watch(&poll, &mut socket);
        Ok(Port { socket, poll })
    }

    /// The next connection, of which small answers go out at once, where the system can.
    fn next(&self) -> Result<Option<TcpStream>, Failed> {
        for _ in 0..TRIES {
            match self.socket.accept() {
                Ok((mut stream, _)) => {
                    let _ = stream.set_nodelay(true);
                    watch(&self.poll, &mut stream);
                    return Ok(Some(stream));
                }
                Err(error) if error.kind() == ErrorKind::Interrupted => {}
                Err(error) if error.kind() == ErrorKind::WouldBlock => return Ok(None),
                Err(_) => return Err(Failed),
            }
        }
        Ok(None)
    }
}

/// Listens on 127.0.0.1. Its connections tell nothing of the octets that they carry. An accept that
/// fails is tried again, as long as connections are there and for a minute else; the first is told.
#[derive(Drop)]
pub struct PolledLoopback<'r, R: Net + Clock + Eprint> {
    net: &'r R,
    misses: Misses,
    port: Option<Port>,
    /// The number of the port that is listened on.
    number: Option<u16>,
    events: Events,
    /// Those that are let go of.
    leaving: Partings<Leaving<'r, R, TcpStream>>,
    totals: Totals,
    /// When the time was told first, and how many milliseconds later it was when it was told last.
    start: Option<Instant>,
    millis: u64,
    /// How many connections have come, are there, and were there at the same time at most.
    count: u64,
    there: u64,
    most: u64,
    looks: u64,
    failed: bool,
    ghost fewer: { there ≤ count },
}

impl<'r, R: Net + Clock + Eprint> PolledLoopback<'r, R> {
    pub fn new(net: &'r R, alloc: Global) -> Result<PolledLoopback<'r, R>, AllocError>
        ensures none { IfOk result (λ it. it.count ≡ 0) }
        ensures there { IfOk result (λ it. it.there ≡ 0) }
        ensures most { IfOk result (λ it. it.most ≡ 0) }
        ensures looks { IfOk result (λ it. it.looks ≡ 0) }
    {
        Ok(PolledLoopback {
            net,
            misses: Misses::new(),
            port: None,
            number: None,
            events: Events::with_capacity(alloc, EVENTS)?,
            leaving: Partings::new(alloc),
            totals: Totals::new(),
            start: None,
            millis: 0,
            count: 0,
            there: 0,
            most: 0,
            looks: 0,
            failed: false,
        })
    }

    /// Lets go of those that are to be let go of, as far as it goes at once: whether octets moved.
    fn leave(&mut self) -> bool
        ensures count { self.new.count ≡ self.old.count }
        ensures there { self.new.there ≡ self.old.there }
        ensures most { self.new.most ≡ self.old.most }
        ensures number { self.new.number ≡ self.old.number }
        ensures looks { self.new.looks ≡ self.old.looks }
    {
        if self.leaving.is_empty() {
            return false;
        }
        go_on(&mut self.leaving)
    }

    /// Waits until octets may move.
    fn wait(&mut self)
        ensures count { self.new.count ≡ self.old.count }
        ensures there { self.new.there ≡ self.old.there }
        ensures most { self.new.most ≡ self.old.most }
        ensures number { self.new.number ≡ self.old.number }
        ensures looks { self.new.looks ≡ self.old.looks }
    {
        let wait = if self.misses.is_some() {
            PAUSE
        } else if !self.leaving.is_empty() {
            SHORT_WAIT
        } else {
            LONGEST_WAIT
        };
        if let Some(port) = &mut self.port {
            let _ = port
                .poll
                .poll(&mut self.events, Some(Duration::from_millis(wait)));
        }
    }

    /// Lets go of those that are still to be let go of when all were served, and tells what was read
    /// and written of all.
    pub(crate) fn finish(&mut self) -> Totals {
        for _ in 0..LAST_ROUNDS {
            if self.leaving.is_empty() {
                return self.totals;
            }
            if !self.leave() && !self.leaving.is_empty() {
                self.wait();
            }
        }
        self.totals
    }

    /// What an accept that failed comes to: as long as connections are there it is waited out.
    fn missed(&mut self) -> Result<Option<PolledStream>, Failed>
        ensures alone { OnErr result (self.old.there ≡ 0) }
        ensures failed { OnErr result (self.new.failed ≡ true) }
        ensures none { IfOk result (λ got. got ≡ None) }
        ensures count { self.new.count ≡ self.old.count }
        ensures there { self.new.there ≡ self.old.there }
        ensures most { self.new.most ≡ self.old.most }
        ensures number { self.new.number ≡ self.old.number }
        ensures looks { self.new.looks ≡ self.old.looks }
    {
        if self.there > 0 {
            self.misses.wait_out(self.net);
            return Ok(None);
        }
        if self.misses.add(self.net) {
            return Ok(None);
        }
        self.failed = true;
        Err(Failed)
    }

    /// The next connection, where a port is listened on.
    fn next(&self) -> Result<Option<TcpStream>, Failed> {
        match &self.port {
            Some(port) => port.next(),
            None => Err(Failed),
        }
    }
}

impl<'r, R: Net + Clock + Eprint> Listener for PolledLoopback<'r, R> {
    ghost came = { λ it. replicate it.count untold };

    ghost port = { λ it. it.number };

    ghost failure = { λ it. it.failed };

    ghost keeps = { λ before after. (after.there ≡ before.there) × (after.most ≡ before.most)
        × (after.looks ≡ before.looks) };

    fn listen(&mut self, number: u16) -> Result<(), Failed> {
        let port = Port::open(self.net, number)?;
        self.port = Some(port);
        self.number = Some(number);
        Ok(())
    }
}

impl<'r, R: Net + Clock + Eprint> PolledListener for PolledLoopback<'r, R> {
    type Connection = PolledStream;

    ghost ended = { λ it all. ⊤ };

    ghost there = { λ it. it.there };

    ghost most = { λ it. it.most };

    ghost looks = { λ it. it.looks };

    ghost listening = { λ before after keeps. record {
      ended = λ all told. told;
      there_is = keeps.0;
      most_is = keeps.1;
      looks_are = keeps.2;
    } };

    fn accept(&mut self) -> Result<Option<PolledStream>, Failed> {
        if self.misses.is_fresh(self.net) {
            return Ok(None);
        }
        match (self.next(), self.count.checked_add(1)) {
            (Ok(None), _) => Ok(None),
            (Ok(Some(stream)), Some(count)) => {
                self.misses.clear();
                self.count = count;
                self.there += 1;
                self.most = self.most.max(self.there);
                Ok(Some(PolledStream::new(stream)))
            }
            _ => self.missed(),
        }
    }

    /// A clock that can't be read stands still.
    fn time(&mut self, _connection: &mut PolledStream) -> u64 {
        match (self.start, Instant::now(self.net)) {
            (Some(start), Ok(now)) => {
                let millis = now.duration_since(start).as_millis();
                self.millis = u64::try_from(millis).unwrap_or(u64::MAX);
            }
            (None, Ok(now)) => self.start = Some(now),
            (_, Err(_)) => {}
        }
        self.millis
    }

    fn hand_back(&mut self, _number: u32, connection: PolledStream, end: End) {
        self.there -= 1;
        let (stream, read, written) = connection.into_parts();
        self.totals.add(&read, &written);
        if end != End::Failed {
            self.leaving.take(Leaving::new(self.net, stream));
        }
    }

    fn look(&mut self, moved: bool) {
        self.looks += 1;
        let has_left = self.leave();
        if moved || has_left {
            return;
        }
        self.wait();
    }
}
