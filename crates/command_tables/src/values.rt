//! Values of a table, from tapes to octets and back.

ghost use Rattle.std.specs.Prelude.{◌≡◌, [], ◌∷◌, ◌++◌, List, ℕ, IfOk, IfErr, IsErr, Ok};
ghost use Rattle.std.specs.Bool.{OnFalse};
ghost use Rattle.std.specs.String.{string_bytes};
ghost use Rattle.std.specs.Fmt.{decimal};
ghost use Rattle.hex.specs.Hex.{decode_of, encode_lower};
ghost use Rattle.type_model.specs.Names.{IsNamed};
ghost use Rattle.command_words.specs.Requests.{ask_of};
ghost use Rattle.command_tables.specs.Answer.{IsLine, IsRefusalOf};
ghost use Rattle.command_tables.specs.Lines.{PrintsOctets, PrintsTape, Prints, HasNoOctets, HasNoTape, HasNoAnswer};
ghost use Rattle.command_tables.specs.Refusal.{wants_memory, IsOfRun};

use crate::refusal::Refusal;
use command_words::requests::{ValueRequest, Way};
use hex::FromHexError;
use position_checker::Accepted;
use std::alloc::{AllocError, Global};

/// The octets that hexadecimal digits are, in letters of either case.
///
/// # Errors
/// `BadHex` where they are none, or want of memory.
pub fn octets_of<'a>(alloc: Global, text: &str) -> Result<Vec<u8>, Refusal<'a>>
    ensures ok { IfOk result (λ octets. decode_of text.now ≡ Ok octets.items) }
    ensures err { IfErr result (λ refusal.
        OnFalse (wants_memory refusal) ((refusal ≡ Refusal.BadHex) × IsErr (decode_of text.now))) }
{
    match hex::decode(alloc, text) {
        Ok(octets) => Ok(octets),
        Err(FromHexError::OutOfMemory) => Err(Refusal::NoMemory),
        Err(_) => Err(Refusal::BadHex),
    }
}

/// A line of octets, as hexadecimal digits in lower case.
pub fn octets_line(alloc: Global, octets: &[u8]) -> Result<String, AllocError>
    ensures { IfOk result (λ line. string_bytes line ≡ encode_lower octets.now ++ 10 ∷ []) }
{
    let mut line = hex::encode(alloc, octets)?;
    line.push_str("\n")?;
    Ok(line)
}

/// A line of how many octets were taken and the tape that they gave.
fn reading_line(alloc: Global, taken: usize, tape: &[u8]) -> Result<String, AllocError>
    ensures { IfOk result (λ line.
        string_bytes line ≡ decimal taken ++ 32 ∷ encode_lower tape.now ++ 10 ∷ []) }
{
    let line = octets_line(alloc, tape)?;
    format!(in alloc; "{taken} {line}")
}

fn encode<'a>(
    alloc: Global,
    table: &Accepted,
    node: u32,
    request: &ValueRequest<'a>,
    tape: &[u8],
) -> Result<String, Refusal<'a>>
    requires { IsNamed table.now.model.names node }
    ensures ok { IfOk result (λ line. PrintsOctets table.now.model.graph request.now.order node request.now.pos tape.now
        (string_bytes line)) }
    ensures err { IfErr result (λ refusal. IsOfRun refusal × OnFalse (wants_memory refusal)
        (HasNoOctets table.now.model.graph request.now.order node request.now.pos tape.now)) }
{
    let octets = table.write(alloc, node, request.order, request.pos, tape)?;
    Ok(octets_line(alloc, octets.as_slice())?)
}

fn decode<'a>(
    alloc: Global,
    table: &Accepted,
    node: u32,
    request: &ValueRequest<'a>,
    octets: &[u8],
) -> Result<String, Refusal<'a>>
    requires { IsNamed table.now.model.names node }
    ensures ok { IfOk result (λ line. PrintsTape table.now.model.graph request.now.order node request.now.pos octets.now
        (string_bytes line)) }
    ensures err { IfErr result (λ refusal. IsOfRun refusal × OnFalse (wants_memory refusal)
        (HasNoTape table.now.model.graph request.now.order node request.now.pos octets.now)) }
{
    let (tape, taken) = table.read(alloc, node, request.order, request.pos, octets)?;
    Ok(reading_line(alloc, taken, tape.as_slice())?)
}

/// The answer for a node with a name, where the digits are already read.
fn answer<'a>(
    alloc: Global,
    table: &Accepted,
    node: u32,
    request: &ValueRequest<'a>,
    input: &[u8],
) -> Result<String, Refusal<'a>>
    requires { IsNamed table.now.model.names node }
    ensures ok { IfOk result (λ line. Prints table.now.model.graph node
        request.now.way request.now.order request.now.pos input.now (string_bytes line)) }
    ensures err { IfErr result (λ refusal. IsOfRun refusal × OnFalse (wants_memory refusal)
        (HasNoAnswer table.now.model.graph node request.now.way request.now.order request.now.pos input.now)) }
{
    match request.way {
        Way::Encode => encode(alloc, table, node, request, input),
        Way::Decode => decode(alloc, table, node, request, input),
    }
}

/// The line that answers a request for hexadecimal digits: the octets of a tape, or how many octets
/// were taken and the tape, in lower case.
///
/// # Errors
/// The first in the order of the words: no such type, bad hexadecimal digits, a refusal of the run.
/// Want of memory can come before each but the first.
pub fn marshal<'a>(
    alloc: Global,
    table: &Accepted,
    request: &ValueRequest<'a>,
    hex: &str,
) -> Result<String, Refusal<'a>>
    ensures line { IfOk result (λ line. IsLine table.now (ask_of request.now hex.now) (string_bytes line)) }
    ensures refused { IfErr result (IsRefusalOf table.now (ask_of request.now hex.now)) }
{
    let Some(node) = table.node_of(request.name) else {
        return Err(Refusal::NoType { name: request.name });
    };
    match octets_of(alloc, hex) {
        Ok(input) => answer(alloc, table, node, request, input.as_slice()),
        Err(refusal) => Err(refusal),
    }
}
