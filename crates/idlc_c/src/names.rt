//! The names of a table's types.

ghost use Rattle.std.specs.Prelude.{◌≡◌, ◌≢◌, ◌≤◌, drop, length, slice_get, take, All, Contains, IfErr, IfNone, IfOk, IfSome, OnErr, Some};
ghost use Rattle.idlc_c.specs.Answers.{HasName, RefusesName, TellsLength};

use crate::octets::put;
use crate::refusal::Refusal;
use position_checker::Accepted;

/// The node of a name. Octets that are no text are no name.
pub(crate) fn find(table: &Accepted, name: &[u8]) -> Option<u32>
    ensures found { IfSome result (λ node. Contains table.now.model.names (name.now, node)) }
    ensures missing { IfNone result (All (λ pair. pair.0 ≢ name.now) table.now.model.names) }
{
    let names = table.table().model().names();
    for place in 0..names.len() {
        let (text, node) = names.pair(place);
        if text.as_bytes() == name {
            return Some(node);
        }
    }
    None
}

/// Writes the name at a place to the buffer, and tells its length and its node.
pub(crate) fn name_at(
    table: &Accepted,
    place: usize,
    out: &mut [u8],
    node: &mut u32,
) -> Result<usize, Refusal>
    ensures done { IfOk result (λ len. slice_get table.now.model.names place ≡ Some (take len out.new, node.new)) }
    ensures within { IfOk result (λ len. len ≤ length out.old) }
    ensures behind { IfOk result (λ len. drop len out.new ≡ drop len out.old) }
    ensures refused { IfErr result (RefusesName (length table.now.model.names ≤ place)
        (TellsLength (λ len. HasName place len table.now) (length out.old))) }
    ensures kept { OnErr result (out.new ≡ out.old) }
    ensures same_node { OnErr result (node.new ≡ node.old) }
{
    let names = table.table().model().names();
    if place >= names.len() {
        return Err(Refusal::NotNamed);
    }
    let (text, number) = names.pair(place);
    let len = put(text.as_bytes(), out)?;
    *node = number;
    Ok(len)
}
