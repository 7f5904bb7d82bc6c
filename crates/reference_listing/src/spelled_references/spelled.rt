//! References by their texts.

ghost use Rattle.std.specs.Prelude.{◌≡◌, IfOk, IfErr, true, false};
ghost use Rattle.reference_texts.specs.References.{reference_of};
ghost use Rattle.reference_listing.specs.Spelled.{SpellsReference, is_url as is_url_text};
ghost use Rattle.reference_listing.specs.Refusal.{RefusesSpelling};

use crate::spelled_references::fault::SpellingFault;
use crate::spelled_references::place::reference_at;
use giop_types::GiopTypes;
use reference_texts::corbaloc::{CorbalocFault, read_corbaloc};
use reference_texts::{Ior, ReferenceFault, ior_from_text};
use std::alloc::Global;

pub(crate) fn is_url(text: &str) -> bool
    ensures { result ≡ is_url_text text.now }
{
    text.as_bytes().starts_with(b"corbaloc:".as_slice())
}

/// The reference that a URL stands for.
fn of_url(types: &GiopTypes, alloc: Global, text: &str) -> Result<Ior, SpellingFault>
    requires { is_url_text text.now ≡ true }
    ensures found { IfOk result (λ ior. SpellsReference text.now (reference_of ior)) }
    ensures refused { IfErr result (λ fault. RefusesSpelling fault text.now) }
{
    let location = match read_corbaloc(alloc, text) {
        Ok(location) => location,
        Err(CorbalocFault::BadCorbaloc) => return Err(SpellingFault::BadCorbaloc),
        Err(CorbalocFault::NoMemory) => return Err(SpellingFault::NoMemory),
    };
    match reference_at(types, alloc, &location) {
        Ok(ior) => Ok(ior),
        Err(ReferenceFault::BadIor) => Err(SpellingFault::BadCorbaloc),
        Err(ReferenceFault::NoMemory) => Err(SpellingFault::NoMemory),
    }
}

/// The reference in digits.
fn of_digits(types: &GiopTypes, alloc: Global, text: &str) -> Result<Ior, SpellingFault>
    requires { is_url_text text.now ≡ false }
    ensures found { IfOk result (λ ior. SpellsReference text.now (reference_of ior)) }
    ensures refused { IfErr result (λ fault. RefusesSpelling fault text.now) }
{
    match ior_from_text(types, alloc, text) {
        Ok(ior) => Ok(ior),
        Err(ReferenceFault::BadIor) => Err(SpellingFault::BadIor),
        Err(ReferenceFault::NoMemory) => Err(SpellingFault::NoMemory),
    }
}

/// The reference that a text spells: in digits behind `IOR:`, or as a corbaloc URL, which begins with
/// `corbaloc:` and stands for a reference without an id that has one profile.
///
/// # Errors
/// `BadCorbaloc` of a text that begins as a URL, `BadIor` of any other, where it spells no reference.
/// Want of memory.
pub fn read_reference(types: &GiopTypes, alloc: Global, text: &str) -> Result<Ior, SpellingFault>
    ensures found { IfOk result (λ ior. SpellsReference text.now (reference_of ior)) }
    ensures refused { IfErr result (λ fault. RefusesSpelling fault text.now) }
{
    if is_url(text) {
        of_url(types, alloc, text)
    } else {
        of_digits(types, alloc, text)
    }
}
