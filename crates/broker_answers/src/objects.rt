//! The objects that are served, their interfaces and operations.

ghost use Rattle.std.specs.Prelude.{◌≡◌, option_map, slice_get, IfSome, IfNone, None};
ghost use Rattle.std.specs.List.{list_any};
ghost use Rattle.std.specs.Str.{bytes_eq};
ghost use Rattle.broker_answers.specs.Objects.{IsNamedOperation, first_named, has_name, is_a as is_of_type, objects_of, operation_named as operation_of, place_from};

use type_model::{Interface, Model, Name, Operation};

/// An object's key, and the place of its interface in the model.
pub(crate) type Object = (Vec<u8>, u32);

/// The place of the object with a key.
pub(crate) fn place_of(objects: &[Object], key: &[u8]) -> Option<usize>
    ensures { result ≡ place_from 0 key.now (objects_of objects.now) }
{
    for place in 0..objects.len() {
        if objects[place].0.as_slice() == key {
            return Some(place);
        }
    }
    None
}

/// Whether the operation of the number has a name.
fn is_named(model: &Model, number: u32, name: &[u8]) -> bool
    ensures { result ≡ has_name name.now (slice_get model.now.operations number) }
{
    match model.operations().get(number as usize) {
        Some(operation) => operation.name.as_str().as_bytes() == name,
        None => false,
    }
}

/// The first of these operations that has a name.
fn first_with(model: &Model, name: &[u8], numbers: &[u32]) -> Option<u32>
    ensures { result ≡ first_named model.now name.now numbers.now }
{
    for number in numbers {
        if is_named(model, *number, name) {
            return Some(*number);
        }
    }
    None
}

fn operation_at(model: &Model, number: u32) -> Option<&Operation>
    ensures { option_map (λ o. o.now) result ≡ slice_get model.now.operations number }
{
    model.operations().get(number as usize)
}

/// The first operation of an interface that has a name, and its number.
pub(crate) fn operation_named<'m>(
    model: &'m Model,
    interface: &Interface,
    name: &[u8],
) -> Option<(u32, &'m Operation)>
    ensures found { IfSome result (λ r. IsNamedOperation model.now interface.now name.now r.0 r.1.now) }
    ensures missing { IfNone result (operation_of model.now interface.now name.now ≡ None) }
{
    let Some(number) = first_with(model, name, interface.operations.as_slice()) else {
        return None;
    };
    match operation_at(model, number) {
        Some(operation) => Some((number, operation)),
        None => unreachable!(),
    }
}

fn has_id(bases: &[Name], id: &[u8]) -> bool
    ensures { result ≡ list_any (bytes_eq id.now) bases.now }
{
    for base in bases {
        if id == base.as_str().as_bytes() {
            return true;
        }
    }
    false
}

/// Whether an object of the interface is of the type with an id.
pub(crate) fn is_a(interface: &Interface, id: &[u8]) -> bool
    ensures { result ≡ is_of_type interface.now id.now }
{
    id == interface.id.as_str().as_bytes()
        || has_id(interface.bases.as_slice(), id)
        || id == b"IDL:omg.org/CORBA/Object:1.0".as_slice()
}
