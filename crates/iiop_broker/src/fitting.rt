//! Which objects can be served together.

ghost use Rattle.std.specs.Prelude.{◌≡◌, ◌↔◌, IsTrue, nat_lt};
ghost use Rattle.std.specs.List.{list_all};
ghost use Rattle.broker_answers.specs.Objects.{AreServed, objects_of};
ghost use Rattle.iiop_broker.specs.inner.Fitting.{AreFit, are_distinct as are_all_distinct, has_key as some_has_key};

use position_checker::Accepted;

type Object = (Vec<u8>, u32);

fn has_key(objects: &[Object], key: &[u8]) -> bool
    ensures { result ≡ some_has_key key.now (objects_of objects.now) }
{
    for object in objects {
        if key == object.0.as_slice() {
            return true;
        }
    }
    false
}

/// Whether no two objects have one key.
fn are_distinct(objects: &[Object]) -> bool
    ensures { result ≡ are_all_distinct (objects_of objects.now) }
{
    for place in 0..objects.len() {
        let behind = objects.split_at(place + 1).1;
        if has_key(behind, objects[place].0.as_slice()) {
            return false;
        }
    }
    true
}

/// Whether the interface of each object is one of so many.
fn are_within(objects: &[Object], count: usize) -> bool
    ensures { result ≡ list_all (λ object. nat_lt object.1 count) (objects_of objects.now) }
{
    for object in objects {
        if object.1 as usize >= count {
            return false;
        }
    }
    true
}

/// Whether no two objects have one key, and the interface of each is one of so many.
pub(crate) fn are_fit(objects: &[Object], count: usize) -> bool
    ensures { IsTrue result ↔ AreFit count (objects_of objects.now) }
{
    are_distinct(objects) && are_within(objects, count)
}

/// Whether these objects can be served by accepted types: no two have one key, and each has the
/// place of an interface in the model. Takes no memory.
#[tactic(auto, using(crate::proofs::Fit::served_from, crate::proofs::Fit::served_to))]
pub fn objects_fit(accepted: &Accepted, objects: &[(Vec<u8>, u32)]) -> bool
    ensures { IsTrue result ↔ AreServed accepted.now.model (objects_of objects.now) }
{
    are_fit(objects, accepted.table().model().interfaces().len())
}
