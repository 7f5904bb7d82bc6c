//! Files read whole.

ghost use Rattle.std.specs.Prelude.{◌≤◌, length, IfErr, IfOk};
ghost use Rattle.command_tables.specs.Reading.{IsReadFault};

use std::fs::{self, Files};
use std::io::{self, Read};

/// Why a file wasn't read.
#[derive(Clone, Copy, Debug, PartialEq, Eq)]
pub enum ReadFault {
    Unread,
    /// It has more octets than the limit.
    TooLong,
    NoMemory,
}

/// The octets of a file, of which there are at most `limit`.
///
/// # Errors
/// `Unread` where the file can't be opened or read, `TooLong` where it has more octets.
pub(crate) fn read_whole<R: Files + AllocGlobal>(
    rt: &R,
    path: &str,
    limit: u32,
) -> Result<Vec<u8>, ReadFault>
    ensures within { IfOk result (λ octets. length octets.items ≤ limit) }
    ensures refused { IfErr result (IsReadFault (λ octets. Unit {0}) limit) }
{
    let Ok(file) = fs::open(rt, path) else {
        return Err(ReadFault::Unread);
    };
    let mut octets = Vec::new(rt.alloc());
    match file.take(u64::from(limit) + 1).read_to_end(&mut octets) {
        Ok(_) if octets.len() > limit as usize => Err(ReadFault::TooLong),
        Ok(_) => Ok(octets),
        Err(error) if error.kind() == io::ErrorKind::OutOfMemory => Err(ReadFault::NoMemory),
        Err(_) => Err(ReadFault::Unread),
    }
}
