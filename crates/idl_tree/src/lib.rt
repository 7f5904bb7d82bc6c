//! The tree of an IDL specification (ISO/IEC 19500-1, IDL grammar), and what tokens it spells.
//!
//! Public functions make expressions and sequences, and say what they spell.
#![tactic(auto)]

pub mod const_expr;
mod counts;
pub mod definitions;
pub mod expression;
pub mod kinds;
pub mod lists;
pub mod names;
mod readers;
mod readings;
pub mod spec;
pub mod tree_laws;
pub mod types;
