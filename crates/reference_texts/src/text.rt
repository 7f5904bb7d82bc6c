//! References as text.

ghost use Rattle.std.specs.Prelude.{◌≡◌, ℕ, List, Ok, IfOk, IfErr, IfSome, IfNone};
ghost use Rattle.std.specs.Bool.{OnFalse};
ghost use Rattle.std.specs.String.{string_bytes};
ghost use Rattle.hex.specs.Hex.{decode_of};
ghost use Rattle.reference_texts.specs.Encapsulations.{Encapsulates, IsWritten};
ghost use Rattle.reference_texts.specs.References.{Reference, reference_of, reference_tree};
ghost use Rattle.reference_texts.specs.Refusal.{wants_memory};
ghost use Rattle.reference_texts.specs.Texts.{HasDigits, IsTextOf, Spells, SpellsOctets, spelled};

use crate::encapsulation::{read_encapsulation, write_encapsulation};
use crate::fault::ReferenceFault;
use crate::reference::{Ior, push_reference, reference_in};
use giop_types::{GiopTypes, OBJECT};
use hex::FromHexError;
use std::alloc::{AllocError, Global};

/// The word before the digits.
const WORD: &str = "IOR:";

/// The encapsulation of a reference.
fn write_reference(types: &GiopTypes, alloc: Global, ior: &Ior) -> Result<Vec<u8>, ReferenceFault>
    ensures written { IfOk result (λ octets. IsWritten 13 (reference_tree (reference_of ior.now)) octets.items) }
    ensures refused { IfErr result (λ fault. OnFalse (wants_memory fault) ((octets : List ℕ)
        → IsWritten 13 (reference_tree (reference_of ior.now)) octets → ⊥)) }
{
    let mut tape = Vec::new(alloc);
    match push_reference(&mut tape, ior) {
        Ok(()) => write_encapsulation(types, alloc, OBJECT, tape.as_slice()),
        Err(fault) => Err(ReferenceFault::from(fault)),
    }
}

/// The word, and the digits of octets.
fn text_of(alloc: Global, octets: &[u8]) -> Result<String, AllocError>
    ensures { IfOk result (λ text. string_bytes text ≡ spelled octets.now) }
{
    let digits = hex::encode(alloc, octets)?;
    let mut text = String::from_str(alloc, WORD)?;
    text.push_str(digits.as_str())?;
    Ok(text)
}

/// The text of a reference: `IOR:` and the digits, in lower case, of its encapsulation in big
/// order.
///
/// # Errors
/// `BadIor` where the id holds a zero, or a part is too long for its count. Want of memory.
pub fn ior_to_text(types: &GiopTypes, alloc: Global, ior: &Ior) -> Result<String, ReferenceFault>
    ensures text { IfOk result (λ text. IsTextOf (reference_of ior.now) (string_bytes text)) }
    ensures refused { IfErr result (λ fault. OnFalse (wants_memory fault) ((text : List ℕ)
        → IsTextOf (reference_of ior.now) text → ⊥)) }
{
    match write_reference(types, alloc, ior) {
        Ok(octets) => Ok(text_of(alloc, octets.as_slice())?),
        Err(fault) => Err(fault),
    }
}

/// What stands behind the word, in letters of either case.
fn digits_in(text: &[u8]) -> Option<&[u8]>
    ensures found { IfSome result (λ digits. HasDigits text.now digits.now) }
    ensures refused { IfNone result ((digits : List ℕ) → HasDigits text.now digits → ⊥) }
{
    if text.len() < WORD.len() {
        return None;
    }
    let (word, digits) = text.split_at(WORD.len());
    if word.eq_ignore_ascii_case(WORD.as_bytes()) {
        Some(digits)
    } else {
        None
    }
}

/// The octets that digits spell.
fn octets_of(alloc: Global, digits: &[u8]) -> Result<Vec<u8>, ReferenceFault>
    ensures found { IfOk result (λ octets. decode_of digits.now ≡ Ok octets.items) }
    ensures refused { IfErr result (λ fault. OnFalse (wants_memory fault)
        ((octets : List ℕ) → decode_of digits.now ≡ Ok octets → ⊥)) }
{
    match hex::decode(alloc, digits) {
        Ok(octets) => Ok(octets),
        Err(FromHexError::OutOfMemory) => Err(ReferenceFault::NoMemory),
        Err(_) => Err(ReferenceFault::BadIor),
    }
}

/// The reference in an encapsulation.
fn read_reference(types: &GiopTypes, alloc: Global, octets: &[u8]) -> Result<Ior, ReferenceFault>
    ensures found { IfOk result (λ ior. Encapsulates 13 (reference_tree (reference_of ior)) octets.now) }
    ensures refused { IfErr result (λ fault. OnFalse (wants_memory fault) ((reference : Reference)
        → Encapsulates 13 (reference_tree reference) octets.now → ⊥)) }
{
    let tape = match read_encapsulation(types, alloc, OBJECT, octets) {
        Ok(tape) => tape,
        Err(fault) => return Err(fault),
    };
    match reference_in(alloc, tape.as_slice()) {
        Ok(ior) => Ok(ior),
        Err(fault) => Err(ReferenceFault::from(fault)),
    }
}

/// The octets of the encapsulation that a text spells, of whatever value: `IOR:`, in letters of either case, and
/// their digits, of either case.
///
/// # Errors
/// `BadIor` where the text is none. Want of memory.
pub fn encapsulation_in(alloc: Global, text: &str) -> Result<Vec<u8>, ReferenceFault>
    ensures found { IfOk result (λ octets. SpellsOctets text.now octets.items) }
    ensures refused { IfErr result (λ fault. OnFalse (wants_memory fault)
        ((octets : List ℕ) → SpellsOctets text.now octets → ⊥)) }
{
    let Some(digits) = digits_in(text.as_bytes()) else {
        return Err(ReferenceFault::BadIor);
    };
    octets_of(alloc, digits)
}

/// The reference that a text spells: `IOR:`, in letters of either case, and the digits, of either
/// case, of an encapsulation of the reference. Octets behind the reference are ignored.
///
/// # Errors
/// `BadIor` where the text spells no reference. Want of memory.
pub fn ior_from_text(types: &GiopTypes, alloc: Global, text: &str) -> Result<Ior, ReferenceFault>
    ensures found { IfOk result (λ ior. Spells text.now (reference_of ior)) }
    ensures refused { IfErr result (λ fault. OnFalse (wants_memory fault)
        ((reference : Reference) → Spells text.now reference → ⊥)) }
{
    match encapsulation_in(alloc, text) {
        Ok(octets) => read_reference(types, alloc, octets.as_slice()),
        Err(fault) => Err(fault),
    }
}
