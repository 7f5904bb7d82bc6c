//! Calls by words for operations and texts for arguments.

ghost use Rattle.reference_texts.specs.References.{reference_of};
ghost use Rattle.call_commands.specs.Calls.{IsTextCalled};

use crate::ask::{CallTypes, TextCall};
use crate::choice::choose;
use crate::ending::Ending;
use crate::fault::CallRefusal;
use crate::sending::called;
use call_client::object_calls::Dial;
use reference_texts::Ior;
use std::alloc::Global;
use type_model::part_names::PartNames;

/// Calls an operation of the object that a reference names, with the arguments that a text says.
///
/// # Errors
/// `NoOperation`, `Unsaid` before anything is dialled, or `NotARequest` with want of memory; then as
/// `call_object` of followed_calls says; `Readdressed` where its server asks for a form of address that
/// there isn't, or again for one after the object was named as it asked.
pub fn call_text<D: Dial>(
    types: &CallTypes<'_>,
    alloc: Global,
    dial: &mut D,
    ior: Ior,
    ask: &TextCall<'_>,
) -> Result<Ending, CallRefusal>
    ensures { IsTextCalled (D.went dial.old) (D.went dial.new) types.now ask.now (reference_of ior)
        (D.lines dial.old) result (D.lines dial.new) }
{
    let nameless = PartNames::new(alloc, Vec::new(alloc));
    let (id, word) = (ior.type_id.as_slice(), ask.operation.as_bytes());
    match choose(types.table, types.names, types.giop, &nameless, id, word) {
        Some(choice) => called(types, alloc, dial, ior, &choice, ask),
        None => Err(CallRefusal::NoOperation),
    }
}
