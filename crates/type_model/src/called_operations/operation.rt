//! Operations by words.

ghost use Rattle.std.specs.Prelude.{◌≡◌, option_map, slice_get};
ghost use Rattle.std.specs.List.{list_any};
ghost use Rattle.std.specs.Str.{bytes_eq};
ghost use Rattle.type_model.specs.Operations.{behind as behind_name, first_named as first_of_name, has_name, is_of as is_of_id, named_by_id as by_id, named_in_full as in_full, operation_in as operation_of_interface, operation_of as operation_of_model, stripped as stripped_of};

use crate::{Interface, Model, Name};

fn has_base(bases: &[Name], id: &[u8]) -> bool
    ensures { result ≡ list_any (bytes_eq id.now) bases.now }
{
    for base in bases {
        if id == base.as_str().as_bytes() {
            return true;
        }
    }
    false
}

/// Whether an object of the interface may be behind a reference with the id.
fn is_of(interface: &Interface, id: &[u8]) -> bool
    ensures { result ≡ is_of_id id.now interface.now }
{
    id == interface.id.as_str().as_bytes() || has_base(interface.bases.as_slice(), id)
}

/// Whether the operation of the number has a name.
fn is_named(model: &Model, number: u32, name: &[u8]) -> bool
    ensures { result ≡ has_name name.now (slice_get model.now.operations number) }
{
    match model.operations().get(number as usize) {
        Some(operation) => operation.name.as_str().as_bytes() == name,
        None => false,
    }
}

/// The first of these operations that has a name.
fn first_named(model: &Model, name: &[u8], numbers: &[u32]) -> Option<u32>
    ensures { result ≡ first_of_name model.now name.now numbers.now }
{
    for number in numbers {
        if is_named(model, *number, name) {
            return Some(*number);
        }
    }
    None
}

/// What stands behind a prefix.
fn stripped<'w>(prefix: &[u8], word: &'w [u8]) -> Option<&'w [u8]>
    ensures { option_map (λ rest. rest.now) result ≡ stripped_of prefix.now word.now }
{
    word.strip_prefix(prefix)
}

/// The word without the name of an interface and `::`.
fn after_interface<'w>(interface: &Name, word: &'w [u8]) -> Option<&'w [u8]>
    ensures { option_map (λ name. name.now) result ≡ behind_name interface.now word.now }
{
    match stripped(interface.as_str().as_bytes(), word) {
        Some(rest) => stripped(b"::".as_slice(), rest),
        None => None,
    }
}

fn named_by_id(model: &Model, id: &[u8], word: &[u8], interface: &Interface) -> Option<u32>
    ensures { result ≡ by_id model.now id.now word.now interface.now }
{
    if is_of(interface, id) {
        first_named(model, word, interface.operations.as_slice())
    } else {
        None
    }
}

fn named_in_full(model: &Model, word: &[u8], interface: &Interface) -> Option<u32>
    ensures { result ≡ in_full model.now word.now interface.now }
{
    match after_interface(&interface.name, word) {
        Some(name) => first_named(model, name, interface.operations.as_slice()),
        None => None,
    }
}

fn operation_in(model: &Model, id: &[u8], word: &[u8], interface: &Interface) -> Option<u32>
    ensures { result ≡ operation_of_interface model.now id.now word.now interface.now }
{
    match named_by_id(model, id, word, interface) {
        Some(number) => Some(number),
        None => named_in_full(model, word, interface),
    }
}

/// The number of the operation that a word names for an object whose reference has an id: one of an
/// interface with this id or with a base that has it, or of any interface in full, as `A::I::op`.
pub fn operation_of(model: &Model, id: &[u8], word: &[u8]) -> Option<u32>
    ensures { result ≡ operation_of_model model.now id.now word.now }
{
    for interface in model.interfaces() {
        if let Some(number) = operation_in(model, id, word, interface) {
            return Some(number);
        }
    }
    None
}
