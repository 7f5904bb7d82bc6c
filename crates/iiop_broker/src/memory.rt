//! Octets in memory.

ghost use Rattle.std.specs.Prelude.{◌≡◌, ◌≤◌, ◌<◌, [], false, length, take, Some};

use crate::ends::{Failed, Input, Output};
use std::alloc::Global;

/// Reads from a slice, and tells what is left of it.
#[derive(Drop)]
pub struct Source<'b> {
    left: &'b [u8],
}

/// Copies as many octets as there is room for.
fn fill(octets: &[u8], buffer: &mut [u8]) -> usize
    ensures within { result ≤ length octets.now }
    ensures room { result ≤ length buffer.old }
    ensures copied { take result buffer.new ≡ take result octets.now }
    ensures same_length { length buffer.new ≡ length buffer.old }
    ensures all { result ≡ 0 → 0 < length buffer.old → octets.now ≡ [] }
{
    let n = octets.len().min(buffer.len());
    buffer[..n].copy_from_slice(&octets[..n]);
    n
}

impl<'b> Source<'b> {
    pub fn new(octets: &'b [u8]) -> Source<'b>
        ensures { result.left.now ≡ octets.now }
    {
        Source { left: octets }
    }
}

impl<'b> Input for Source<'b> {
    ghost left = { λ source. Some source.left.now };

    ghost failure = { λ source. false };

    fn read(&mut self, buffer: &mut [u8]) -> Result<usize, Failed> {
        let n = fill(self.left, buffer);
        self.left = self.left.split_at(n).1;
        Ok(n)
    }
}

/// Writes to a list, and tells what is in it.
#[derive(Drop)]
pub struct Sink {
    octets: Vec<u8>,
    failed: bool,
}

impl Sink {
    pub fn new(alloc: Global) -> Sink
        ensures empty { result.octets.items ≡ [] }
        ensures sound { result.failed ≡ false }
    {
        Sink {
            octets: Vec::new(alloc),
            failed: false,
        }
    }

    /// What was written.
    pub fn octets(&self) -> &[u8]
        ensures { result.now ≡ self.now.octets.items }
    {
        self.octets.as_slice()
    }
}

impl Output for Sink {
    ghost written = { λ sink. Some sink.octets.items };

    ghost failure = { λ sink. sink.failed };

    fn write(&mut self, octets: &[u8]) -> Result<usize, Failed> {
        match self.octets.extend_from_slice(octets) {
            Ok(()) => Ok(octets.len()),
            Err(_) => {
                self.failed = true;
                Err(Failed)
            }
        }
    }
}
