//! Tables by the words that name them: the sample, table files, and IDL files, which are compiled in
//! memory.
#![tactic(auto)]

mod loaded;

pub use loaded::{NamedFault, load};
