//! The text that `tshark -q -z follow,tcp,raw,N` prints of a connection, line by line.

ghost use Rattle.std.specs.Prelude.{◌≡◌, codes, nat_eq, IfOk, IfErr, None};
ghost use Rattle.std.specs.Bool.{OnFalse};
ghost use Rattle.std.specs.List.{starts_with};
ghost use Rattle.giop_dumps.specs.Follows.{bare as bare_of, followed_of, follows, in_body as body_of, is_rule as is_rule_in, is_second as is_second_in, names_second as names_second_in, piece_of};
ghost use Rattle.giop_dumps.specs.Refusal.{wants_memory};

use crate::captures::fault::CaptureFault;
use hex::FromHexError;
use std::alloc::Global;

/// A direction of a connection: that of the octets of its first node, or of its second.
#[derive(Clone, Copy, Debug, PartialEq, Eq)]
pub enum Side {
    First,
    Second,
}

/// Where in the text a line stands.
#[derive(Clone, Copy, Debug, PartialEq, Eq)]
pub enum Stage {
    /// Before the first rule.
    Before,
    /// Between the first rule and the line of the second node.
    Head,
    /// Behind that line.
    Body,
    /// Behind the second rule.
    Behind,
}

/// Octets of a direction, as they went.
#[derive(Drop)]
pub struct Piece {
    pub side: Side,
    pub octets: Vec<u8>,
}

/// What a line says: where the next one stands, and the octets that it has, if it is one of octets.
#[derive(Drop)]
pub struct Followed {
    pub stage: Stage,
    pub piece: Option<Piece>,
}

fn begins_with(line: &[u8], front: &[u8]) -> bool
    ensures { result ≡ starts_with nat_eq line.now front.now }
{
    line.starts_with(front)
}

fn is_rule(line: &[u8]) -> bool
    ensures { result ≡ is_rule_in line.now }
{
    begins_with(line, b"====".as_slice())
}

fn names_second(line: &[u8]) -> bool
    ensures { result ≡ names_second_in line.now }
{
    begins_with(line, b"Node 1:".as_slice())
}

fn is_second(line: &[u8]) -> bool
    ensures { result ≡ is_second_in line.now }
{
    begins_with(line, b"\t".as_slice())
}

/// The octets that digits are.
fn octets_of(alloc: Global, side: Side, digits: &[u8]) -> Result<Piece, CaptureFault>
    ensures found { IfOk result (λ piece. piece_of side digits.now ≡ Some (piece.side, piece.octets.items)) }
    ensures refused { IfErr result (λ fault. OnFalse (wants_memory fault) (piece_of side digits.now ≡ None)) }
{
    match hex::decode(alloc, digits) {
        Ok(octets) => Ok(Piece { side, octets }),
        Err(FromHexError::OutOfMemory) => Err(CaptureFault::NoMemory),
        Err(_) => Err(CaptureFault::BadCapture),
    }
}

/// A line that stands behind that of the second node.
fn in_body(alloc: Global, line: &[u8]) -> Result<Followed, CaptureFault>
    ensures found { IfOk result (λ said. body_of line.now ≡ Some (followed_of said)) }
    ensures refused { IfErr result (λ fault. OnFalse (wants_memory fault) (body_of line.now ≡ None)) }
{
    if is_rule(line) {
        return Ok(Followed {
            stage: Stage::Behind,
            piece: None,
        });
    }
    let piece = if is_second(line) {
        octets_of(alloc, Side::Second, &line[1..])
    } else {
        octets_of(alloc, Side::First, line)
    };
    match piece {
        Ok(piece) => Ok(Followed {
            stage: Stage::Body,
            piece: Some(piece),
        }),
        Err(fault) => Err(fault),
    }
}

/// A line without octets, behind which this stage begins.
fn silent(stage: Stage) -> Followed
    ensures stage { result.stage ≡ stage }
    ensures piece { result.piece ≡ None }
{
    Followed { stage, piece: None }
}

/// The line without a carriage return at its end.
fn bare_line(line: &[u8]) -> &[u8]
    ensures { result.now ≡ bare_of line.now }
{
    let len = line.len();
    if len > 0 && line[len - 1] == b'\r' {
        line.split_at(len - 1).0
    } else {
        line
    }
}

/// What a line of the text says, without its line feed, which stands in this stage of the text.
///
/// # Errors
/// `BadCapture` where it is no line of that stage. Want of memory.
pub fn follow_line(alloc: Global, stage: Stage, line: &[u8]) -> Result<Followed, CaptureFault>
    ensures found { IfOk result (λ said. follows stage (bare_of line.now) ≡ Some (followed_of said)) }
    ensures refused { IfErr result (λ fault. OnFalse (wants_memory fault) (follows stage (bare_of line.now) ≡ None)) }
{
    let line = bare_line(line);
    match stage {
        Stage::Before if line.is_empty() => Ok(silent(Stage::Before)),
        Stage::Before if is_rule(line) => Ok(silent(Stage::Head)),
        Stage::Head if names_second(line) => Ok(silent(Stage::Body)),
        Stage::Head => Ok(silent(Stage::Head)),
        Stage::Body => in_body(alloc, line),
        Stage::Behind if line.is_empty() => Ok(silent(Stage::Behind)),
        _ => Err(CaptureFault::BadCapture),
    }
}
