//! What a capture is read from.

use std::alloc::Global;
use std::io::{self, Read};

/// So many octets are read at once.
const BLOCK: usize = 16_384;

/// A reader, with the octets that it gave last.
#[derive(Drop)]
pub struct Source<R> {
    reader: R,
    block: Vec<u8>,
    /// So many octets of the block were given; none where the reader has ended.
    len: usize,
    /// Whether it is read on before these are looked at again.
    is_due: bool,
    /// Whether it may go on behind its end.
    grows: bool,
}

/// Why nothing was read.
#[derive(Clone, Copy, Debug, PartialEq, Eq)]
pub enum SourceFault {
    Unread,
    NoMemory,
}

/// Reads into a block, and tells how many octets came.
fn read_block<R: Read>(reader: &mut R, block: &mut Vec<u8>) -> Result<usize, SourceFault> {
    match reader.read(block.as_mut_slice()) {
        Ok(len) => Ok(len.min(block.len())),
        Err(error) if error.kind() == io::ErrorKind::OutOfMemory => Err(SourceFault::NoMemory),
        Err(_) => Err(SourceFault::Unread),
    }
}

impl<R: Read + Drop> Source<R> {
    /// A reader whose first octets were read.
    ///
    /// # Errors
    /// It can't be read. Want of memory.
    pub fn open(alloc: Global, reader: R) -> Result<Source<R>, SourceFault> {
        let mut reader = reader;
        let Ok(mut block) = vec![in alloc; 0u8; BLOCK] else {
            return Err(SourceFault::NoMemory);
        };
        let len = read_block(&mut reader, &mut block)?;
        Ok(Source {
            reader,
            block,
            len,
            is_due: false,
            grows: false,
        })
    }

    /// The same, which may go on behind its end.
    pub fn growing(self) -> Source<R> {
        let Source {
            reader,
            block,
            len,
            is_due,
            grows: _,
        } = self;
        Source {
            reader,
            block,
            len,
            is_due: is_due || len == 0,
            grows: true,
        }
    }

    /// The octets that were read last; none where there are no more.
    pub fn octets(&self) -> &[u8] {
        match self.block.as_slice().get(..self.len) {
            Some(octets) => octets,
            None => &[],
        }
    }

    /// Reads on, where the octets that were read last were used.
    pub(crate) fn look(&mut self) -> Result<(), SourceFault> {
        if self.is_due {
            self.len = read_block(&mut self.reader, &mut self.block)?;
            self.is_due = self.len == 0 && self.grows;
        }
        Ok(())
    }

    /// The octets that were read last were used.
    pub(crate) fn pass(&mut self) {
        self.is_due = true;
    }
}
