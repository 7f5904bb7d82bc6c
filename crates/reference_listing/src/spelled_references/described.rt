//! What references say, by their texts.

ghost use Rattle.std.specs.Prelude.{IfOk, IfErr};
ghost use Rattle.std.specs.String.{string_bytes};
ghost use Rattle.reference_texts.specs.References.{reference_of};
ghost use Rattle.reference_texts.specs.Texts.{Spells, SpellsOctets};
ghost use Rattle.reference_listing.specs.Described.{IsDescription, IsToldOf, IsToldOfUrl};
ghost use Rattle.reference_listing.specs.Refusal.{RefusesSpelling};

use crate::spelled_references::fault::SpellingFault;
use crate::spelled_references::lines::reference_text;
use crate::spelled_references::spelled::{is_url, read_reference};
use giop_types::{GiopTypes, OBJECT};
use reference_texts::{Ior, ReferenceFault, encapsulation_in, ior_to_text, manner_of};
use std::alloc::{AllocError, Global};

/// The octets that a text in digits spells.
fn octets_in(alloc: Global, text: &str, ior: &Ior) -> Result<Vec<u8>, AllocError>
    requires { Spells text.now (reference_of ior.now) }
    ensures { IfOk result (λ octets. SpellsOctets text.now octets.items) }
{
    match encapsulation_in(alloc, text) {
        Ok(octets) => Ok(octets),
        Err(ReferenceFault::NoMemory) => Err(AllocError),
        Err(ReferenceFault::BadIor) => unreachable!(),
    }
}

/// The lines of a reference in digits.
fn described(types: &GiopTypes, alloc: Global, text: &str, ior: &Ior) -> Result<String, AllocError>
    requires { Spells text.now (reference_of ior.now) }
    ensures { IfOk result (λ lines. IsToldOf text.now (reference_of ior.now) (string_bytes lines)) }
{
    let octets = octets_in(alloc, text, ior)?;
    match manner_of(types, alloc, OBJECT, octets.as_slice()) {
        Ok(manner) => reference_text(types, alloc, ior, &manner),
        Err(ReferenceFault::NoMemory) => Err(AllocError),
        Err(ReferenceFault::BadIor) => unreachable!(),
    }
}

/// The lines of a reference for which a URL stands: first it in digits. A reference that can't be written has
/// a host and a key of 2 ^ 32 octets together, for which memory is wanted first.
fn told_of_url(types: &GiopTypes, alloc: Global, ior: &Ior) -> Result<String, AllocError>
    ensures { IfOk result (λ lines. IsToldOfUrl (reference_of ior.now) (string_bytes lines)) }
{
    match ior_to_text(types, alloc, ior) {
        Ok(text) => {
            let rest = described(types, alloc, text.as_str(), ior)?;
            format!(in alloc; "{text}\n{rest}")
        }
        Err(_) => Err(AllocError),
    }
}

/// What the reference says that a text spells, as lines: its id and the byte order of its octets, then each
/// profile, the octets of gaps that aren't zero, with their places, and those behind the reference. Before
/// them stands the reference in digits, where the text is a URL.
///
/// # Errors
/// `BadCorbaloc` of a text that begins as a URL, `BadIor` of any other, where it spells no reference.
/// Want of memory.
pub fn described_reference(
    types: &GiopTypes,
    alloc: Global,
    text: &str,
) -> Result<String, SpellingFault>
    ensures described { IfOk result (λ lines. IsDescription text.now (string_bytes lines)) }
    ensures refused { IfErr result (λ fault. RefusesSpelling fault text.now) }
{
    let ior = match read_reference(types, alloc, text) {
        Ok(ior) => ior,
        Err(fault) => return Err(fault),
    };
    if is_url(text) {
        Ok(told_of_url(types, alloc, &ior)?)
    } else {
        Ok(described(types, alloc, text, &ior)?)
    }
}
