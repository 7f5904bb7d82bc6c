//! Where servers are, and what is connected to them.

ghost use Rattle.std.specs.Prelude.{◌≡◌, ◌⊎◌, None};

use crate::deadline::Deadline;
use giop_messages::reply_streams::closes;
use std::alloc::{AllocError, Global};
use std::io::ErrorKind;
use std::net::{Net, OpenStream, TcpStream, ToSocketAddrs};
use std::time::Clock;

/// A port of a host.
#[derive(Drop)]
pub(crate) struct Place {
    pub(crate) host: Vec<u8>,
    pub(crate) port: u16,
}

impl Place {
    pub(crate) fn new(alloc: Global, host: &[u8], port: u16) -> Result<Place, AllocError> {
        Ok(Place {
            host: Vec::from_slice(alloc, host)?,
            port,
        })
    }

    pub(crate) fn is(&self, host: &[u8], port: u16) -> bool {
        self.port == port && self.host.as_slice() == host
    }
}

/// The two handles of the socket of a connection.
#[derive(Drop)]
pub(crate) struct Handles<S> {
    pub(crate) reader: S,
    pub(crate) writer: S,
}

/// Those of a socket, of which small requests go out at once, where the system can.
fn handles_of<S: OpenStream + Drop>(stream: S) -> Option<Handles<S>> {
    let _ = stream.set_nodelay(true);
    match stream.try_clone() {
        Ok(writer) => Some(Handles {
            reader: stream,
            writer,
        }),
        Err(_) => None,
    }
}

/// So many octets are looked at that came on a connection while no reply was awaited.
const SEEN: usize = 1_024;

/// Whether a connection on which no reply is awaited still stands, as far as one sees without waiting: its
/// server hasn't closed it, by CloseConnection (ISO/IEC 19500-2, Connection Management) or by TCP.
fn is_open<S: OpenStream>(alloc: Global, stream: &S) -> bool {
    let mut octets = [0u8; SEEN];
    if stream.set_nonblocking(true).is_err() {
        return false;
    }
    let seen = stream.peek(&mut octets);
    if stream.set_nonblocking(false).is_err() {
        return false;
    }
    match seen {
        Ok(0) => false,
        Ok(n) => match closes(alloc, octets.as_slice().split_at(n).0) {
            Ok(is_closing) => !is_closing,
            Err(_) => false,
        },
        Err(error) => error.kind() == ErrorKind::WouldBlock,
    }
}

/// A connection that was handed back, and where it goes.
#[derive(Drop)]
pub(crate) struct Kept<S> {
    pub(crate) place: Place,
    pub(crate) handles: Handles<S>,
}

/// The connection, if it still stands.
pub(crate) fn standing<S: OpenStream + Drop>(
    alloc: Global,
    kept: Option<Kept<S>>,
) -> Option<Kept<S>>
    ensures { (result ≡ kept) ⊎ (result ≡ None) }
{
    match kept {
        Some(kept) => {
            if is_open(alloc, &kept.handles.reader) {
                Some(kept)
            } else {
                None
            }
        }
        None => None,
    }
}

/// Connects to a port of a host, by the first of its addresses that answers before the time has passed.
pub(crate) fn connected<R: Net + Clock>(
    rt: &R,
    deadline: &Deadline<'_, R>,
    host: &[u8],
    port: u16,
) -> Option<Handles<R::Stream>> {
    let Ok(name) = str::from_utf8(host) else {
        return None;
    };
    let Ok(addresses) = (name, port).to_socket_addrs(rt) else {
        return None;
    };
    for address in addresses {
        let Some(left) = deadline.left() else {
            return None;
        };
        if let Ok(stream) = TcpStream::connect_timeout(rt, &address, left) {
            return handles_of(stream);
        }
    }
    None
}
