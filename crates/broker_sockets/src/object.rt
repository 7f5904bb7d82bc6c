//! The object that is served.

ghost use Rattle.std.specs.Prelude.{◌≡◌, ◌∷◌, [], IfOk, IfErr};
ghost use Rattle.broker_answers.specs.Objects.{objects_of};
ghost use Rattle.broker_sockets.specs.Objects.{AreOf, IsBrokerOf, IsObjectFault, IsObjectOf};

use crate::fault::ServeFault;
use broker_answers::attribute_keeper::Keeper;
use command_tables::{interface_place, object_in};
use giop::Giop;
use iiop_broker::Broker;
use position_checker::Accepted;
use std::alloc::{AllocError, Global};

/// The key of the object, and the place of its interface. The table of a file has fewer than
/// 4,294,967,296 interfaces; one that has more is refused for want of memory.
fn object_of<'a>(table: &Accepted, word: &'a str) -> Result<(&'a str, u32), ServeFault<'a>>
    ensures is { IfOk result (λ object. IsObjectOf table.now.model word.now (object.0.now, object.1)) }
    ensures refused { IfErr result (IsObjectFault table.now.model word.now) }
{
    let Some((key, name)) = object_in(word) else {
        return Err(ServeFault::BadObject);
    };
    let Some(place) = interface_place(table.table().model().interfaces(), name) else {
        return Err(ServeFault::NoInterface { name });
    };
    match u32::try_from(place) {
        Ok(place) => Ok((key, place)),
        Err(_) => Err(ServeFault::NoMemory),
    }
}

/// The objects of which there is just this one.
fn lone_object(alloc: Global, key: &str, place: u32) -> Result<Vec<(Vec<u8>, u32)>, AllocError>
    ensures { IfOk result (λ objects. objects_of objects.items ≡ (key.now, place) ∷ []) }
{
    let key = Vec::from_slice(alloc, key.as_bytes())?;
    let mut objects = Vec::new(alloc);
    objects.push((key, place))?;
    Ok(objects)
}

/// The object that a word names, a keeper of its attributes, and the types of messages. They stand apart from the broker, so
/// that the table is let go at one place alone.
fn parts_of<'a>(
    alloc: Global,
    table: &Accepted,
    word: &'a str,
) -> Result<(Vec<(Vec<u8>, u32)>, Keeper, Giop), ServeFault<'a>>
    ensures made { IfOk result (λ parts. AreOf table.now.model word.now (objects_of parts.0.items) parts.1) }
    ensures refused { IfErr result (IsObjectFault table.now.model word.now) }
{
    let (key, place) = object_of(table, word)?;
    let objects = lone_object(alloc, key, place)?;
    let keeper = Keeper::new(alloc, table, objects.as_slice())?;
    let giop = Giop::new(alloc)?;
    Ok((objects, keeper, giop))
}

/// A broker of the object that a word names, and of a keeper of its attributes.
pub(crate) fn broker_of<'a>(
    alloc: Global,
    table: Accepted,
    word: &'a str,
) -> Result<Broker<Keeper>, ServeFault<'a>>
    ensures made { IfOk result (IsBrokerOf table.model word.now) }
    ensures refused { IfErr result (IsObjectFault table.model word.now) }
{
    let (objects, keeper, giop) = parts_of(alloc, &table, word)?;
    Ok(Broker::new(alloc, giop, table, objects, keeper))
}
