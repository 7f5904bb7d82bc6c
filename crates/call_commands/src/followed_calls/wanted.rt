//! What is wanted of a call.

use position_checker::Accepted;
use type_model::part_names::PartNames;

/// The types of a table with the names of their parts, the frame of the result among them, and the
/// exceptions that the operation may raise.
#[derive(Clone, Copy)]
pub struct Wanted<'t> {
    pub table: &'t Accepted,
    pub names: &'t PartNames,
    pub reply: u32,
    pub exceptions: &'t [u32],
}
