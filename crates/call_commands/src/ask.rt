//! What is asked for.

use giop::Giop;
use position_checker::Accepted;
use type_graph::Order;
use type_model::part_names::PartNames;

/// The types by which calls are made: those of GIOP, and those of a table with the names of their
/// parts.
#[derive(Clone, Copy)]
pub struct CallTypes<'t> {
    pub giop: &'t Giop,
    pub table: &'t Accepted,
    pub names: &'t PartNames,
}

/// A call of an object.
#[derive(Clone, Copy)]
pub struct TextCall<'a> {
    /// An operation of the table's interface that the reference's id names, or one in full, as
    /// `A::I::op`; or one that every object has.
    pub operation: &'a str,
    /// The arguments, as one text.
    pub value: &'a str,
    pub order: Order,
    /// The number of the request.
    pub id: u32,
    /// How many reads may give octets.
    pub reads: u64,
}
