//! Connections made.

ghost use Rattle.std.specs.Prelude.{◌≡◌, ⊤, [], map, false, IfSome, IsSomeAnd};
ghost use Rattle.call_sockets.specs.Dialled.{line_of};

use crate::deadline::Deadline;
use crate::ends::{DialledReader, DialledWriter};
use crate::place::{Handles, Kept, Place, connected, standing};
use call_client::object_calls::{Dial, DialFault};
use std::alloc::{AllocError, Global};
use std::net::Net;
use std::time::Clock;

/// A port of a host that was dialled, and whether a connection was made.
#[derive(Drop)]
pub(crate) struct Dialled {
    host: Vec<u8>,
    port: u16,
    is_made: bool,
}

/// A connection that was handed back, if it is sound.
fn sound<S: Drop>(place: Option<Place>, reader: Option<S>, writer: Option<S>) -> Option<Kept<S>> {
    let Some(place) = place else {
        return None;
    };
    let Some(reader) = reader else {
        return None;
    };
    let Some(writer) = writer else {
        return None;
    };
    Some(Kept {
        place,
        handles: Handles { reader, writer },
    })
}

/// Dials by TCP. What a connection is asked for has to be done before the time of its call has passed,
/// but for the look-up of a host's name, on which the system sets the time.
#[derive(Drop)]
pub struct Dialler<'r, R: Net + Clock> {
    rt: &'r R,
    alloc: Global,
    seconds: u32,
    deadline: Deadline<'r, R>,
    dialled: Vec<Dialled>,
    /// The place that was dialled last, and the connection there, once it was handed back.
    place: Option<Place>,
    last: Option<Kept<R::Stream>>,
    /// One that may be handed out again.
    kept: Option<Kept<R::Stream>>,
}

impl<'r, R: Net + Clock> Dialler<'r, R> {
    /// One that has dialled nothing, and has so many seconds.
    pub fn new(rt: &'r R, alloc: Global, seconds: u32) -> Dialler<'r, R>
        ensures { result.dialled.items ≡ [] }
    {
        Dialler {
            rt,
            alloc,
            seconds,
            deadline: Deadline::new(rt, seconds),
            dialled: Vec::new(alloc),
            place: None,
            last: None,
            kept: None,
        }
    }

    /// Another call begins, which has its own seconds, and goes on by the connection that was handed
    /// back last, where it is to the same port of the same host and its server hasn't closed it. What came
    /// on it behind the reply is read by that call.
    pub fn go_on(&mut self)
        ensures { self.new.dialled.items ≡ [] }
    {
        let last = self.last.take();
        self.kept = standing(self.alloc, last);
        self.dialled.clear();
        self.deadline = Deadline::new(self.rt, self.seconds);
    }

    /// The connection that is kept, if it goes there.
    fn kept_to(&mut self, host: &[u8], port: u16) -> Option<Handles<R::Stream>>
        ensures dialled { self.new.dialled ≡ self.old.dialled }
        ensures kept { IfSome result (λ handles. IsSomeAnd self.old.kept (λ kept. handles ≡ kept.handles)) }
    {
        match self.kept.take() {
            Some(kept) if kept.place.is(host, port) => Some(kept.handles),
            _ => None,
        }
    }

    /// A connection, kept or made.
    fn reached(&mut self, host: &[u8], port: u16) -> Result<Option<Handles<R::Stream>>, AllocError>
        ensures { self.new.dialled ≡ self.old.dialled }
    {
        self.place = Some(Place::new(self.alloc, host, port)?);
        match self.kept_to(host, port) {
            Some(handles) => Ok(Some(handles)),
            None => Ok(connected(self.rt, &self.deadline, host, port)),
        }
    }
}

impl<'r, R: Net + Clock> Dial for Dialler<'r, R> {
    type Reader = DialledReader<'r, R, R::Stream>;

    type Writer = DialledWriter<'r, R, R::Stream>;

    ghost lines = { λ dialler. map line_of dialler.dialled.items };

    ghost went = { λ dialler all. ⊤ };

    fn dial(
        &mut self,
        host: &[u8],
        port: u16,
    ) -> Result<
        (
            DialledReader<'r, R, R::Stream>,
            DialledWriter<'r, R, R::Stream>,
        ),
        DialFault,
    > {
        let Ok(noted) = Vec::from_slice(self.alloc, host) else {
            return Err(DialFault::NoMemory);
        };
        if self.dialled.reserve(1).is_err() {
            return Err(DialFault::NoMemory);
        }
        let Ok(reached) = self.reached(host, port) else {
            return Err(DialFault::NoMemory);
        };
        let dialled = Dialled {
            host: noted,
            port,
            is_made: reached.is_some(),
        };
        if self.dialled.push(dialled).is_err() {
            return Err(DialFault::NoMemory);
        }
        match reached {
            Some(handles) => Ok((
                DialledReader::new(handles.reader, self.deadline.same()),
                DialledWriter::new(handles.writer, self.deadline.same()),
            )),
            None => Err(DialFault::NotReached),
        }
    }

    fn hang_up(
        &mut self,
        reader: DialledReader<'r, R, R::Stream>,
        writer: DialledWriter<'r, R, R::Stream>,
    ) {
        let place = self.place.take();
        self.last = sound(place, reader.sound(), writer.sound());
    }
}
