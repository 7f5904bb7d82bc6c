//! Exceptions by ids.

ghost use Rattle.std.specs.Prelude.{◌≡◌, option_map, slice_get};
ghost use Rattle.std.specs.Str.{bytes_eq};
ghost use Rattle.type_model.specs.Exceptions.{exception_with as exception_of_id};

use crate::{Exception, Model};

/// The exception of a number.
fn exception_at(model: &Model, number: u32) -> Option<&Exception>
    ensures { option_map (λ e. e.now) result ≡ slice_get model.now.exceptions number }
{
    model.exceptions().get(number as usize)
}

fn has_id(exception: &Exception, id: &[u8]) -> bool
    ensures { result ≡ bytes_eq exception.now.id id.now }
{
    exception.id.as_str().as_bytes() == id
}

/// The first of these exceptions that has an id.
pub fn exception_with<'m>(model: &'m Model, id: &[u8], numbers: &[u32]) -> Option<&'m Exception>
    ensures { option_map (λ e. e.now) result ≡ exception_of_id model.now id.now numbers.now }
{
    for number in numbers {
        if let Some(exception) = exception_at(model, *number)
            && has_id(exception, id)
        {
            return Some(exception);
        }
    }
    None
}
