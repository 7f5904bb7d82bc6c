//! Sockets of this machine alone.

ghost use Rattle.std.specs.Prelude.{◌≡◌, ⊤, false, replicate};
ghost use Rattle.broker_sockets.specs.Visits.{untold};

use crate::connections::is_sound;
use crate::leaving::let_go;
use crate::listener::BlockingListener;
use crate::misses::{Misses, PAUSE, TRIES};
use crate::side::Side;
use crate::totals::Totals;
use broker_loop::Listener;
use iiop_broker::{Failed, StreamFault};
use std::net::{Net, OpenListener, OpenStream, TcpListener};
use std::thread;
use std::time::{Clock, Duration};

/// Listens on 127.0.0.1. Its connections tell nothing of the octets that they carry. An accept that
/// fails is tried again, and the first is told.
#[derive(Drop)]
pub struct Loopback<'r, R: Net + Clock + Eprint> {
    net: &'r R,
    misses: Misses,
    socket: Option<R::Listener>,
    /// That of the connection that came last, to let go of it.
    stream: Option<R::Stream>,
    totals: Totals,
    /// The port that is listened on.
    port: Option<u16>,
    /// How many connections have come.
    count: u64,
    failed: bool,
}

impl<'r, R: Net + Clock + Eprint> Loopback<'r, R> {
    pub fn new(net: &'r R) -> Loopback<'r, R>
        ensures { result.count ≡ 0 }
    {
        Loopback {
            net,
            misses: Misses::new(),
            socket: None,
            stream: None,
            totals: Totals::new(),
            port: None,
            count: 0,
            failed: false,
        }
    }
}

/// The two sides of a connection, and what it is let go of by.
#[derive(Drop)]
struct Ends<S> {
    reader: Side<S>,
    writer: Side<S>,
    stream: S,
    ghost reading: { reader.failed ≡ false },
    ghost writing: { writer.failed ≡ false },
}

/// The next connection, of which small answers go out at once, where the system can.
fn next<S: OpenStream + Drop, T: OpenListener<Stream = S>>(socket: &T) -> Option<Ends<S>> {
    let Ok((stream, _)) = socket.accept() else {
        return None;
    };
    let _ = stream.set_nodelay(true);
    match (stream.try_clone(), stream.try_clone()) {
        (Ok(reader), Ok(writer)) => Some(Ends {
            reader: Side::new(reader),
            writer: Side::new(writer),
            stream,
        }),
        _ => None,
    }
}

impl<'r, R: Net + Clock + Eprint> Loopback<'r, R> {
    /// What was read and written of the connections that went.
    pub(crate) fn totals(&self) -> Totals {
        self.totals
    }

    /// The next connection, for which it is tried often enough.
    fn wait(&mut self) -> Option<Ends<R::Stream>>
        ensures port { self.new.port ≡ self.old.port }
        ensures count { self.new.count ≡ self.old.count }
    {
        let Some(socket) = &self.socket else {
            return None;
        };
        for _ in 0..TRIES {
            if let Some(ends) = next(socket) {
                self.misses.clear();
                return Some(ends);
            }
            if !self.misses.add(self.net) {
                return None;
            }
            thread::sleep(self.net, Duration::from_millis(PAUSE));
        }
        None
    }
}

impl<'r, R: Net + Clock + Eprint> Listener for Loopback<'r, R> {
    ghost came = { λ loopback. replicate loopback.count untold };

    ghost port = { λ loopback. loopback.port };

    ghost failure = { λ loopback. loopback.failed };

    ghost keeps = { λ before after. ⊤ };

    fn listen(&mut self, number: u16) -> Result<(), Failed> {
        match TcpListener::bind(self.net, ("127.0.0.1", number)) {
            Ok(socket) => {
                self.socket = Some(socket);
                self.port = Some(number);
                Ok(())
            }
            Err(_) => Err(Failed),
        }
    }
}

impl<'r, R: Net + Clock + Eprint> BlockingListener for Loopback<'r, R> {
    type Reader = Side<R::Stream>;

    type Writer = Side<R::Stream>;

    ghost went = { λ loopback all. ⊤ };

    ghost listening = { λ before after keeps all told. told };

    fn accept(&mut self) -> Result<(Side<R::Stream>, Side<R::Stream>), Failed> {
        match (self.wait(), self.count.checked_add(1)) {
            (Some(ends), Some(count)) => {
                self.count = count;
                self.stream = Some(ends.stream);
                Ok((ends.reader, ends.writer))
            }
            _ => {
                self.failed = true;
                Err(Failed)
            }
        }
    }

    fn hand_back(
        &mut self,
        reader: Side<R::Stream>,
        writer: Side<R::Stream>,
        end: Result<(), StreamFault>,
    ) {
        self.totals.add(reader.tally(), writer.tally());
        if let Some(stream) = self.stream.take()
            && is_sound(end)
        {
            let_go(self.net, stream);
        }
    }
}
