//! Files that are read from front to back.

use std::fs::{self, Files};
use std::io::{self, Read};

/// Files that are read from front to back.
pub trait CaptureFiles {
    type Reader: Read + Drop;

    /// A file's octets.
    ///
    /// # Errors
    /// It can't be opened.
    fn reader_of(&self, path: &str) -> io::Result<Self::Reader>;
}

/// The files of the system.
impl<R: Files> CaptureFiles for R {
    type Reader = R::File;

    fn reader_of(&self, path: &str) -> io::Result<R::File> {
        fs::open(self, path)
    }
}
