//! Files written beside their place and renamed, or where they are if none can be made beside it.

use std::alloc::AllocError;
use std::fs::{self, Files, OpenOptions, Permissions};
use std::io::{self, Write};

/// Why a file wasn't written.
#[derive(Clone, Copy, Debug, PartialEq, Eq)]
pub enum WriteFault {
    Unwritten,
    NoMemory,
}

impl From<AllocError> for WriteFault {
    fn from(_error: AllocError) -> WriteFault {
        WriteFault::NoMemory
    }
}

/// So many names are tried for the file beside the place.
const TRIES: u32 = 100;

fn put<W: Write>(out: &mut W, octets: &[u8]) -> bool {
    out.write_all(octets).is_ok() && out.flush().is_ok()
}

/// A new file beside the place, under a name that nothing had; none where no file can be made there.
fn new_beside<R: Files + AllocGlobal>(
    rt: &R,
    path: &str,
) -> Result<Option<(String, R::File)>, AllocError> {
    for number in 0..TRIES {
        let name = format!(in rt.alloc(); "{path}.{number}.new")?;
        match OpenOptions::new()
            .write(true)
            .create_new(true)
            .open(rt, name.as_str())
        {
            Ok(file) => return Ok(Some((name, file))),
            Err(error) if error.kind() == io::ErrorKind::AlreadyExists => (),
            Err(_) => return Ok(None),
        }
    }
    Ok(None)
}

/// Gives the file beside the place its mode and its name; it is removed where that fails.
fn rename<R: Files>(rt: &R, name: &str, path: &str, mode: Option<Permissions>) -> bool {
    let has_mode = match mode {
        Some(mode) => fs::set_permissions(rt, name, mode).is_ok(),
        None => true,
    };
    has_mode && fs::rename(rt, name, path).is_ok()
}

/// What stands at the place stays as it is until the new file has taken it.
fn replace<R: Files + AllocGlobal>(
    rt: &R,
    path: &str,
    mode: Option<Permissions>,
    octets: &[u8],
) -> Result<(), WriteFault> {
    let Some((name, file)) = new_beside(rt, path)? else {
        return write_there(rt, path, octets);
    };
    let mut file = file;
    let is_written = put(&mut file, octets);
    drop(file);
    if is_written && rename(rt, name.as_str(), path, mode) {
        return Ok(());
    }
    let _ = fs::remove_file(rt, name.as_str());
    Err(WriteFault::Unwritten)
}

/// Devices, pipes and links stay what they are.
fn write_there<R: Files>(rt: &R, path: &str, octets: &[u8]) -> Result<(), WriteFault> {
    let opened = OpenOptions::new()
        .write(true)
        .create(true)
        .truncate(true)
        .open(rt, path);
    let Ok(mut file) = opened else {
        return Err(WriteFault::Unwritten);
    };
    if put(&mut file, octets) {
        Ok(())
    } else {
        Err(WriteFault::Unwritten)
    }
}

/// Writes the octets to a file. Where there is none yet, or a regular one, it is written beside its
/// place and renamed, so that a run that fails leaves what was there; it keeps its mode. Anything
/// else, as a device or a link, is written where it is, and so is a file beside which none can be made.
///
/// # Errors
/// `Unwritten` where the file can't be made or written.
pub(crate) fn write_whole<R: Files + AllocGlobal>(
    rt: &R,
    path: &str,
    octets: &[u8],
) -> Result<(), WriteFault> {
    match fs::symlink_metadata(rt, path) {
        Ok(found) if found.is_file() => replace(rt, path, Some(found.permissions()), octets),
        Ok(_) => write_there(rt, path, octets),
        Err(error) if error.kind() == io::ErrorKind::NotFound => replace(rt, path, None, octets),
        Err(_) => Err(WriteFault::Unwritten),
    }
}
