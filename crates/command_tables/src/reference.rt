//! The line of a reference to an object of a table's interface.

ghost use Rattle.std.specs.Prelude.{◌≡◌, ℕ, List, [], ◌∷◌, ◌++◌, IfOk, IfErr};
ghost use Rattle.std.specs.Bool.{OnFalse};
ghost use Rattle.std.specs.String.{string_bytes};
ghost use Rattle.reference_texts.specs.References.{reference_of};
ghost use Rattle.reference_texts.specs.Refusal.{wants_memory};
ghost use Rattle.command_words.specs.Requests.{reference_parts_of};
ghost use Rattle.command_tables.specs.References.{IsReferenceLine, IsReferenceText, reference_with};
ghost use Rattle.command_tables.specs.NoReference.{IsReferenceRefusal};

use crate::object::{interface_named, object_in};
use crate::refusal::Refusal;
use command_words::requests::ReferenceRequest;
use giop_types::GiopTypes;
use position_checker::Accepted;
use reference_texts::{Ior, ReferenceFault, ior_to_text, profile};
use std::alloc::{AllocError, Global};

/// The tag of the profiles of IIOP.
const IIOP: u32 = 0;

/// The reference with one profile.
fn reference(alloc: Global, id: &[u8], octets: Vec<u8>) -> Result<Ior, AllocError>
    ensures { IfOk result (λ ior. reference_of ior ≡ reference_with id.now octets.items) }
{
    let type_id = id.to_vec(alloc)?;
    let mut profiles = Vec::new(alloc);
    match profiles.push((IIOP, octets)) {
        Ok(()) => Ok(Ior { type_id, profiles }),
        Err(_) => Err(AllocError),
    }
}

/// Its text.
fn reference_text(
    alloc: Global,
    host: &str,
    port: u16,
    key: &str,
    id: &str,
) -> Result<String, ReferenceFault>
    ensures text { IfOk result (λ text. IsReferenceText host.now port key.now id.now (string_bytes text)) }
    ensures refused { IfErr result (λ fault. OnFalse (wants_memory fault) ((text : List ℕ)
        → IsReferenceText host.now port key.now id.now text → ⊥)) }
{
    let types = GiopTypes::new(alloc)?;
    let data = match profile(&types, alloc, host.as_bytes(), port, key.as_bytes()) {
        Ok(data) => data,
        Err(fault) => return Err(fault),
    };
    let ior = reference(alloc, id.as_bytes(), data)?;
    ior_to_text(&types, alloc, &ior)
}

/// The line that answers: the text of a reference to the object, of its interface, with one
/// profile of IIOP, version 1.2, without components.
///
/// # Errors
/// `BadObject` where there is no key, `NoInterface` where the table has no interface of the name,
/// `Refused` where there is no such reference. Want of memory.
pub fn reference_line<'a>(
    alloc: Global,
    table: &Accepted,
    wanted: &ReferenceRequest<'a>,
) -> Result<String, Refusal<'a>>
    ensures line { IfOk result (λ line.
        IsReferenceLine table.now.model (reference_parts_of wanted.now) (string_bytes line)) }
    ensures refused { IfErr result (IsReferenceRefusal table.now.model (reference_parts_of wanted.now)) }
{
    let Some((key, name)) = object_in(wanted.object) else {
        return Err(Refusal::BadObject);
    };
    let Some(interface) = interface_named(table.table().model().interfaces(), name) else {
        return Err(Refusal::NoInterface { name });
    };
    let id = interface.id.as_str();
    match reference_text(alloc, wanted.host, wanted.port, key, id) {
        Ok(mut text) => {
            text.push_str("\n")?;
            Ok(text)
        }
        Err(fault) => Err(Refusal::from(fault)),
    }
}
