//! Files read and written whole, as a caller sees them.

ghost use Rattle.std.specs.Prelude.{ℕ, ◌≤◌, List, length, IfErr, IfOk, OnOk};
ghost use Rattle.command_tables.specs.Reading.{IsReadFault};

use crate::whole_read::{ReadFault, read_whole};
use crate::whole_write::{WriteFault, write_whole};
use std::fs::Files;

/// Files by their names. What is so of their octets is the implementor's to say. A caller that is
/// generic over it can't make them up: octets that a file was read as came from there, and octets
/// that it was written as went there, all of them.
pub trait WholeFiles {
    /// The file of the name was read as the octets: all that it has, or more than were wanted of it.
    ghost reads: { Self → List ℕ → List ℕ → Type 0 };

    /// The file of the name was written as the octets.
    ghost takes: { Self → List ℕ → List ℕ → Type 0 };

    /// The octets of a file, of which there are at most `limit`.
    ///
    /// # Errors
    /// `Unread` where the file can't be opened or read, `TooLong` where it has more octets.
    fn octets_in(&self, path: &str, limit: u32) -> Result<Vec<u8>, ReadFault>
        ensures within { IfOk result (λ octets. length octets.items ≤ limit) }
        ensures read { IfOk result (λ octets. reads self.now path.now octets.items) }
        ensures refused { IfErr result (IsReadFault (reads self.now path.now) limit) };

    /// Writes the octets to a file, all of them where it answers Ok.
    ///
    /// # Errors
    /// `Unwritten` where the file can't be made or written.
    fn put_octets(&self, path: &str, octets: &[u8]) -> Result<(), WriteFault>
        ensures { OnOk result (takes self.now path.now octets.now) };
}

/// The files of the system, of whose octets no contract can tell.
impl<R: Files + AllocGlobal> WholeFiles for R {
    ghost reads = { λ files path octets. Unit {0} };

    ghost takes = { λ files path octets. Unit {0} };

    fn octets_in(&self, path: &str, limit: u32) -> Result<Vec<u8>, ReadFault> {
        read_whole(self, path, limit)
    }

    fn put_octets(&self, path: &str, octets: &[u8]) -> Result<(), WriteFault> {
        write_whole(self, path, octets)
    }
}
