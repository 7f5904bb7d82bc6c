//! Places of objects.

ghost use Rattle.std.specs.Prelude.{◌≡◌, IfOk, IfErr, option_map};
ghost use Rattle.std.specs.Bool.{OnFalse};
ghost use Rattle.reference_texts.specs.Places.{Place, SpellsCorbaloc, behind_protocol as behind_protocol_of, cut as cut_of, is_protocol as is_protocol_word, past_protocol as past_protocol_of, past_scheme as past_scheme_of};
ghost use Rattle.reference_texts.specs.Views.{place_of};
ghost use Rattle.reference_texts.specs.CorbalocRefusal.{wants_memory};

use crate::corbaloc::address::address_of;
use crate::corbaloc::cut::cut;
use crate::corbaloc::fault::CorbalocFault;
use crate::corbaloc::key::key_of;
use std::alloc::Global;

/// Where an object is: its server's host and port, and its key there.
#[derive(Drop)]
pub struct Location {
    pub host: String,
    pub port: u16,
    pub key: Vec<u8>,
}

fn is_protocol(word: &str) -> bool
    ensures { result ≡ is_protocol_word word.now }
{
    word.is_empty() || word == "iiop"
}

/// What stands behind the scheme and its colon.
fn past_scheme(text: &str) -> Option<&str>
    ensures { option_map (λ rest. rest.now) result ≡ past_scheme_of (cut_of 58 text.now) }
{
    let Some((word, rest)) = cut(text, ':') else {
        return None;
    };
    if word == "corbaloc" { Some(rest) } else { None }
}

/// What stands behind the protocol and its colon.
fn past_protocol(text: &str) -> Option<&str>
    ensures { option_map (λ rest. rest.now) result ≡ past_protocol_of (cut_of 58 text.now) }
{
    let Some((word, rest)) = cut(text, ':') else {
        return None;
    };
    if is_protocol(word) { Some(rest) } else { None }
}

fn behind_protocol(text: &str) -> Option<&str>
    ensures { option_map (λ rest. rest.now) result ≡ behind_protocol_of text.now }
{
    match past_scheme(text) {
        Some(rest) => past_protocol(rest),
        None => None,
    }
}

/// The place that a corbaloc URL says: `corbaloc:iiop:1.2@HOST:PORT/KEY`. The protocol may be left
/// out, and so may the version, which is 1.0, 1.1 or 1.2, and the port, which is 2809 then. In the
/// key `%` and two hexadecimal digits stand for an octet.
///
/// # Errors
/// `BadCorbaloc` where the text is no such URL. Want of memory.
pub fn read_corbaloc(alloc: Global, text: &str) -> Result<Location, CorbalocFault>
    ensures found { IfOk result (λ location. SpellsCorbaloc text.now (place_of location)) }
    ensures refused { IfErr result (λ fault. OnFalse (wants_memory fault)
        ((place : Place) → SpellsCorbaloc text.now place → ⊥)) }
{
    let Some(rest) = behind_protocol(text) else {
        return Err(CorbalocFault::BadCorbaloc);
    };
    let Some((address, key)) = cut(rest, '/') else {
        return Err(CorbalocFault::BadCorbaloc);
    };
    let Some((host, port)) = address_of(address) else {
        return Err(CorbalocFault::BadCorbaloc);
    };
    match key_of(alloc, key.as_bytes()) {
        Ok(key) => Ok(Location {
            host: String::from_str(alloc, host)?,
            port,
            key,
        }),
        Err(fault) => Err(fault),
    }
}
