//! Which operation is called.

ghost use Rattle.std.specs.Prelude.{◌≡◌, [], option_map, IfSome};
ghost use Rattle.giop_types.specs.GiopModel.{giop_table};
ghost use Rattle.type_model.specs.Names.{IsNamed};
ghost use Rattle.call_commands.specs.Choices.{choice_of, chosen as chosen_by, of_table, own as own_choice, own_as as as_own};

use giop::Giop;
use giop_types::{BOOLEAN_RESULT, ID_ARGUMENT, NO_ARGUMENT};
use position_checker::Accepted;
use type_model::called_operations::operation_of;
use type_model::part_names::PartNames;

/// An operation with its types and the names of their parts: the frames of its arguments and of its
/// result, and the exceptions that it may raise.
#[derive(Clone, Copy)]
pub(crate) struct Choice<'t> {
    pub(crate) table: &'t Accepted,
    pub(crate) names: &'t PartNames,
    /// The name that a request carries.
    pub(crate) name: &'t [u8],
    pub(crate) request: u32,
    pub(crate) reply: u32,
    pub(crate) exceptions: &'t [u32],
    pub(crate) oneway: bool,
}

/// The operation of a number.
fn choice_at<'t>(table: &'t Accepted, names: &'t PartNames, number: u32) -> Option<Choice<'t>>
    ensures is { option_map choice_of result ≡ of_table table.now.model names.now number }
    ensures request { IfSome result (λ c. IsNamed c.table.now.model.names c.request) }
    ensures reply { IfSome result (λ c. IsNamed c.table.now.model.names c.reply) }
{
    match table.table().model().operations().get(number as usize) {
        Some(operation) => Some(Choice {
            table,
            names,
            name: operation.name.as_str().as_bytes(),
            request: operation.request,
            reply: operation.reply,
            exceptions: operation.exceptions.as_slice(),
            oneway: operation.oneway,
        }),
        None => None,
    }
}

/// An operation that every object has, which answers with a boolean.
fn own_as<'t>(giop: &'t Giop, nameless: &'t PartNames, name: &'t [u8], request: u32) -> Choice<'t>
    requires { nameless.now ≡ [] }
    ensures is { choice_of result ≡ as_own name.now request }
    ensures request { IsNamed giop_table.model.names request → IsNamed result.table.now.model.names result.request }
    ensures reply { IsNamed result.table.now.model.names result.reply }
{
    Choice {
        table: giop.table(),
        names: nameless,
        name,
        request,
        reply: BOOLEAN_RESULT,
        exceptions: &[],
        oneway: false,
    }
}

/// The operation of this name that every object has (ISO/IEC 19500-1, Object Reference Operations).
fn own<'t>(giop: &'t Giop, nameless: &'t PartNames, word: &[u8]) -> Option<Choice<'t>>
    requires { nameless.now ≡ [] }
    ensures is { option_map choice_of result ≡ own_choice word.now }
    ensures request { IfSome result (λ c. IsNamed c.table.now.model.names c.request) }
    ensures reply { IfSome result (λ c. IsNamed c.table.now.model.names c.reply) }
{
    if word == b"_is_a".as_slice() {
        return Some(own_as(giop, nameless, b"_is_a".as_slice(), ID_ARGUMENT));
    }
    if word == b"_non_existent".as_slice() {
        return Some(own_as(giop, nameless, b"_non_existent".as_slice(), NO_ARGUMENT));
    }
    None
}

/// The operation that a word names for an object whose reference has an id: one of the table's, or one
/// that every object has.
pub(crate) fn choose<'t>(
    table: &'t Accepted,
    names: &'t PartNames,
    giop: &'t Giop,
    nameless: &'t PartNames,
    id: &[u8],
    word: &[u8],
) -> Option<Choice<'t>>
    requires { nameless.now ≡ [] }
    ensures is { option_map choice_of result ≡ chosen_by table.now.model names.now id.now word.now }
    ensures request { IfSome result (λ c. IsNamed c.table.now.model.names c.request) }
    ensures reply { IfSome result (λ c. IsNamed c.table.now.model.names c.reply) }
{
    match operation_of(table.table().model(), id, word) {
        Some(number) => choice_at(table, names, number),
        None => own(giop, nameless, word),
    }
}
