//! The words of messages by the types of a table.

ghost use Rattle.std.specs.Prelude.{◌≤◌, length};

use crate::asked::Requests;
use crate::frames::MessageTypes;
use crate::message::whole_lines;
use giop_dumps::Words;
use giop_dumps::captures::Side;
use giop_messages::message_id;
use std::alloc::{AllocError, Global};

/// The number of the type of replies (ISO/IEC 19500-2, GIOP message header).
const REPLY: u8 = 1;

/// The words of messages by the types of a table. The requests of both directions are remembered, for their
/// replies.
#[derive(Drop)]
pub struct TableWords<'t> {
    types: MessageTypes<'t>,
    first: Requests,
    second: Requests,
}

impl<'t> TableWords<'t> {
    /// Those by which nothing was told yet. Takes no memory.
    pub fn new(alloc: Global, types: MessageTypes<'t>) -> TableWords<'t> {
        TableWords {
            types,
            first: Requests::new(alloc),
            second: Requests::new(alloc),
        }
    }
}

impl<'t> Words for TableWords<'t> {
    fn words(&mut self, alloc: Global, side: Side, octets: &[u8]) -> Result<String, AllocError> {
        match side {
            Side::First => whole_lines(
                &self.types,
                alloc,
                &mut self.first,
                &mut self.second,
                octets,
            ),
            Side::Second => whole_lines(
                &self.types,
                alloc,
                &mut self.second,
                &mut self.first,
                octets,
            ),
        }
    }

    fn is_early(&self, side: Side, octets: &[u8]) -> bool {
        if octets.len() < 16 || octets[7] != REPLY {
            return false;
        }
        let id = message_id(octets);
        match side {
            Side::First => !self.second.waits(id),
            Side::Second => !self.first.waits(id),
        }
    }
}
