//! Reads the tree of an IDL specification from its tokens (ISO/IEC 19500-1, IDL grammar).
#![tactic(auto)]

pub mod fault;
mod left_out;
mod parser;

pub use fault::ParseFault;
pub use idl_tree as tree;
pub use parser::parse;
