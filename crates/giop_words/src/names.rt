//! Operations by the names that requests have.

ghost use Rattle.std.specs.Prelude.{◌≡◌, slice_get, true, IfOk, MatchOption};
ghost use Rattle.type_model.specs.Operations.{has_name};
ghost use Rattle.giop_words.specs.Bodies.{HasNone, IsCalled};

use crate::frames::MessageTypes;
use giop::Request;
use giop_types::find_value;
use position_checker::Accepted;
use std::alloc::{AllocError, Global};
use type_model::Model;

/// An operation that a request may call: one of the table by its number, or one that every object has
/// (ISO/IEC 19500-1, Object Reference Operations).
#[derive(Clone, Copy, Debug, PartialEq, Eq)]
pub(crate) enum Named {
    OfTable(usize),
    IsA,
    NonExistent,
    Unknown,
}

/// Whether the operation of a number has a name.
fn is_named(model: &Model, number: usize, name: &[u8]) -> bool
    ensures { result ≡ has_name name.now (slice_get model.now.operations number) }
{
    match model.operations().get(number) {
        Some(operation) => operation.name.as_str().as_bytes() == name,
        None => false,
    }
}

/// Whether the body of a request is just the arguments of an operation.
fn is_body_of(
    table: &Accepted,
    alloc: Global,
    number: usize,
    request: &Request<'_>,
) -> Result<bool, AllocError> {
    let Some(operation) = table.table().model().operations().get(number) else {
        return Ok(false);
    };
    let place = request.body_at as u64;
    let node = operation.request;
    match find_value(table, alloc, node, request.order, place, request.octets)? {
        Some((_, taken)) => Ok(taken == request.octets.len()),
        None => Ok(false),
    }
}

/// The operation of the table that a request calls: of those with its name the first whose arguments its
/// body is, else the first of them.
fn of_table(
    types: &MessageTypes<'_>,
    alloc: Global,
    request: &Request<'_>,
) -> Result<Option<usize>, AllocError>
    ensures { IfOk result (λ o. MatchOption o (HasNone types.now.table.now.model request.now.operation.items)
        (λ number. has_name request.now.operation.items (slice_get types.now.table.now.model.operations number)
        ≡ true)) }
{
    let model = types.table.table().model();
    let mut first = None;
    for number in 0..model.operations().len() {
        if is_named(model, number, request.operation.as_slice()) {
            if is_body_of(types.table, alloc, number, request)? {
                return Ok(Some(number));
            }
            if first.is_none() {
                first = Some(number);
            }
        }
    }
    Ok(first)
}

/// The operation that a request calls.
pub(crate) fn operation_called(
    types: &MessageTypes<'_>,
    alloc: Global,
    request: &Request<'_>,
) -> Result<Named, AllocError>
    ensures { IfOk result (IsCalled types.now.table.now.model request.now.operation.items) }
{
    if let Some(number) = of_table(types, alloc, request)? {
        return Ok(Named::OfTable(number));
    }
    let name = request.operation.as_slice();
    if name == b"_is_a".as_slice() {
        return Ok(Named::IsA);
    }
    if name == b"_non_existent".as_slice() {
        return Ok(Named::NonExistent);
    }
    Ok(Named::Unknown)
}
