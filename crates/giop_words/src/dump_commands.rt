//! Captures as files told, by the types of a table.

mod capture;
mod dump;
mod fault;
mod files;

pub use capture::CaptureNames;
pub use dump::dump_capture;
pub use fault::CaptureFault;
pub use files::CaptureFiles;
