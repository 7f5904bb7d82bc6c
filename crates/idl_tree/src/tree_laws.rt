//! Laws over the tree of an IDL specification.

pub mod laws;
