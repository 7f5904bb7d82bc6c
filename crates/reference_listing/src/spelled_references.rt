//! References as texts spell them: in digits behind `IOR:`, or as a corbaloc URL.

mod described;
mod fault;
mod lines;
mod names;
mod pieces;
mod place;
mod shown;
mod spelled;

pub use described::described_reference;
pub use fault::SpellingFault;
pub use spelled::read_reference;
