//! The names of the parts of nodes: of members, enumerators, parameters and results.

mod node;
mod table;

pub use node::NodeNames;
pub use table::PartNames;
