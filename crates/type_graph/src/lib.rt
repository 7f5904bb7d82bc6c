//! The graph of types of an IDL specification, and what their values are in CDR.
#![tactic(auto)]

pub mod basic_types;
mod cycles;
pub mod fault;
pub mod graph;
mod heights;
pub mod items;
pub mod laws;
pub mod node;
mod rules;
mod shape;
mod unions;
pub mod values;
pub mod width;

pub use fault::{GraphFault, GraphLimit, NodeRule, RuleFault};
pub use graph::Graph;
pub use items::{Arms, Items, Members};
pub use node::Node;
pub use rules::find_fault;
pub use values::Values;
pub use width::{Order, Width};
