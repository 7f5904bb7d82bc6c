//! What stands at the front of a direction, told.

ghost use Rattle.std.specs.Prelude.{◌≡◌, ◌≤◌, ◌<◌, ◌+◌, length, true, false, OnOk, IfOk, IfSome, IfNone, []};
ghost use Rattle.std.specs.String.{string_bytes};
ghost use Rattle.giop_messages.specs.Heads.{max_size};
ghost use Rattle.giop_dumps.specs.OpenRuns.{IsBehind, is_followed, is_fragment, whole_at};
ghost use Rattle.giop_dumps.specs.Tellings.{AreWords, EndsWith, IsEnd, IsFront, IsTelling, count_at, left_behind as left_behind_of, some_of};

use crate::captures::Side;
use crate::digits::{Digits, unread_lines};
use crate::direction::Raw;
use crate::front::{Front, front_in};
use crate::open::{OpenMessage, begins};
use crate::open_runs::{OpenRuns, unfinished};
use crate::unread::Unread;
use crate::words::Words;
use giop_messages::message_id;
use std::alloc::{AllocError, Global};

/// The number of the type of fragments (ISO/IEC 19500-2, GIOP message header).
const FRAGMENT: u8 = 7;

/// So many octets a message has that has a number.
const NUMBERED_LEN: usize = 16;

/// So many octets that are none of a message stand in a line at most.
const RAW_LINE: usize = 4096;

/// The lines of a message whose octets can't be read.
fn strange(alloc: Global, why: Unread, octets: &[u8]) -> Result<String, AllocError> {
    let lines = unread_lines(alloc, &why, octets)?;
    format!(in alloc; "message\n{lines}")
}

/// The lines of the last piece of a message, behind which stand those of the message.
fn last_piece(alloc: Global, id: u32, lines: &str) -> Result<String, AllocError>
    ensures { IfOk result (λ text. EndsWith lines.now (string_bytes text)) }
{
    format!(in alloc; "last piece id {id}: {lines}")
}

/// The lines of the first piece of a message. A run with its number is let go of.
fn first_piece(
    alloc: Global,
    place: u64,
    runs: &mut OpenRuns,
    octets: &[u8],
) -> Result<String, AllocError>
    requires long { 12 ≤ length octets.now }
    requires limited { length octets.now ≤ 12 + max_size }
    requires followed { is_followed octets.now ≡ true }
    requires own { is_fragment octets.now ≡ false }
    ensures { OnOk result (IsBehind place octets.now runs.old runs.new) }
{
    if octets.len() < NUMBERED_LEN {
        return strange(alloc, Unread::BadHead, octets);
    }
    let id = message_id(octets);
    let kind = octets[7];
    let message = OpenMessage::begin(alloc, place, octets)?;
    let again = match runs.take(id) {
        Some(_) => unfinished(alloc, id)?,
        None => String::new(alloc),
    };
    let others = runs.put(alloc, id, message)?;
    format!(in alloc; "first piece of type {kind} id {id}\n{again}{others}")
}

/// The lines of a later piece. Behind the last one stand those of the message that all are.
fn later_piece<W: Words>(
    words: &mut W,
    alloc: Global,
    side: Side,
    place: u64,
    runs: &mut OpenRuns,
    octets: &[u8],
) -> Result<String, AllocError>
    requires long { 12 ≤ length octets.now }
    requires fragment { is_fragment octets.now ≡ true }
    ensures behind { OnOk result (IsBehind place octets.now runs.old runs.new) }
    ensures words { IfOk result (λ text. AreWords W.says side (whole_at octets.now runs.old) words.old
        (string_bytes text) words.new) }
{
    if octets.len() < NUMBERED_LEN {
        return strange(alloc, Unread::BadFragment, octets);
    }
    let id = message_id(octets);
    let message = match runs.take(id) {
        Some(message) => message,
        None => return strange(alloc, Unread::BadFragment, octets),
    };
    if message.is_long_with(octets) {
        return strange(alloc, Unread::BadFragment, octets);
    }
    let message = message.with(place, octets)?;
    if begins(octets) {
        let others = runs.put(alloc, id, message)?;
        return format!(in alloc; "piece id {id}\n{others}");
    }
    let lines = words.words(alloc, side, message.octets())?;
    last_piece(alloc, id, lines.as_str())
}

/// The lines of a message of GIOP 1.2.
fn message_lines<W: Words>(
    words: &mut W,
    alloc: Global,
    side: Side,
    place: u64,
    runs: &mut OpenRuns,
    octets: &[u8],
) -> Result<String, AllocError>
    requires long { 12 ≤ length octets.now }
    requires limited { length octets.now ≤ 12 + max_size }
    ensures behind { OnOk result (IsBehind place octets.now runs.old runs.new) }
    ensures words { IfOk result (λ text. AreWords W.says side (whole_at octets.now runs.old) words.old
        (string_bytes text) words.new) }
{
    if octets[7] == FRAGMENT {
        return later_piece(words, alloc, side, place, runs, octets);
    }
    if begins(octets) {
        return first_piece(alloc, place, runs, octets);
    }
    runs.cancel(octets);
    words.words(alloc, side, octets)
}

/// The lines of a message of GIOP 1.0 or 1.1: its version, its type, and its octets.
fn older_lines(alloc: Global, octets: &[u8]) -> Result<String, AllocError>
    requires { 12 ≤ length octets.now }
{
    let minor = octets[5];
    let kind = octets[7];
    let digits = Digits(octets);
    format!(in alloc; "message of GIOP 1.{minor} type {kind}\n  {digits}\n")
}

/// The line of octets that are none of a message.
fn raw_line(alloc: Global, octets: &[u8]) -> Result<String, AllocError> {
    let digits = Digits(octets);
    format!(in alloc; "octets {digits}\n")
}

/// What is told at the front of a direction: so many octets in these words, and how many behind them are
/// none of a message that is read.
#[derive(Drop)]
pub(crate) struct Told {
    pub(crate) count: usize,
    pub(crate) raw: Raw,
    pub(crate) words: String,
}

/// Octets that are none of a message that is read, of which so many are there.
fn raw_count(octets: &[u8]) -> usize
    ensures is { result ≡ some_of octets.now }
    ensures within { result ≤ length octets.now }
{
    octets.len().min(RAW_LINE)
}

/// Octets all behind which are none of a message.
fn told_lost(alloc: Global, octets: &[u8]) -> Result<Option<Told>, AllocError>
    ensures told { IfOk result (λ o. IfSome o (IsTelling Raw.All octets.now)) }
    ensures none { IfOk result (λ o. IfNone o (count_at Raw.All octets.now ≡ 0)) }
{
    let count = raw_count(octets);
    if count == 0 {
        return Ok(None);
    }
    let words = raw_line(alloc, octets.split_at(count).0)?;
    let raw = Raw::All;
    Ok(Some(Told { count, raw, words }))
}

/// How many octets are left of a message that is told as octets.
fn left_behind(left: u64, count: usize) -> Raw
    ensures { result ≡ left_behind_of left count }
{
    let count = count as u64;
    if count < left {
        Raw::Next(left - count)
    } else {
        Raw::No
    }
}

/// Octets of a message that is told as octets, of which so many are left.
fn told_left(alloc: Global, octets: &[u8], left: u64) -> Result<Option<Told>, AllocError>
    ensures told { IfOk result (λ o. IfSome o (IsTelling (Raw.Next left) octets.now)) }
    ensures none { IfOk result (λ o. IfNone o (count_at (Raw.Next left) octets.now ≡ 0)) }
{
    let some = raw_count(octets);
    let count = if left < some as u64 {
        left as usize
    } else {
        some
    };
    if count == 0 {
        return Ok(None);
    }
    let words = raw_line(alloc, octets.split_at(count).0)?;
    let raw = left_behind(left, count);
    Ok(Some(Told { count, raw, words }))
}

/// The first octets of what can't be read as a message.
fn told_strange(alloc: Global, why: Unread, octets: &[u8], raw: Raw) -> Result<Told, AllocError>
    requires { 12 ≤ length octets.now }
    ensures count { IfOk result (λ told. told.count ≡ some_of octets.now) }
    ensures raw { IfOk result (λ told. told.raw ≡ raw) }
    ensures some { IfOk result (λ told. 0 < told.count) }
    ensures within { IfOk result (λ told. told.count ≤ length octets.now) }
{
    let count = raw_count(octets);
    let words = strange(alloc, why, octets.split_at(count).0)?;
    Ok(Told { count, raw, words })
}

/// A message of so many octets.
fn told_whole(count: usize, words: String) -> Told
    ensures { result ≡ record { count = count; raw = Raw.No; words = words } }
{
    Told {
        count,
        raw: Raw::No,
        words,
    }
}

/// What stands at the front of the octets of a direction, where a message is to stand.
fn told_message<W: Words>(
    words: &mut W,
    alloc: Global,
    side: Side,
    place: u64,
    runs: &mut OpenRuns,
    octets: &[u8],
) -> Result<Option<Told>, AllocError>
    ensures { IfOk result (IsFront W.says side place Raw.No octets.now runs.old runs.new words.old words.new) }
{
    match front_in(octets) {
        Front::More => Ok(None),
        Front::Message(count) => {
            let piece = octets.split_at(count).0;
            let lines = message_lines(words, alloc, side, place, runs, piece)?;
            Ok(Some(told_whole(count, lines)))
        }
        Front::Older(count) => {
            let words = older_lines(alloc, octets.split_at(count).0)?;
            Ok(Some(told_whole(count, words)))
        }
        Front::Long(all) => {
            let raw = left_behind(all, raw_count(octets));
            Ok(Some(told_strange(alloc, Unread::TooLong, octets, raw)?))
        }
        Front::Lost(fault) => {
            let why = Unread::of(fault);
            Ok(Some(told_strange(alloc, why, octets, Raw::All)?))
        }
    }
}

/// What stands at the front of the octets of a direction, the first of them at a place; none where more have
/// to come.
pub(crate) fn told_front<W: Words>(
    words: &mut W,
    alloc: Global,
    side: Side,
    place: u64,
    raw: Raw,
    runs: &mut OpenRuns,
    octets: &[u8],
) -> Result<Option<Told>, AllocError>
    ensures { IfOk result (IsFront W.says side place raw octets.now runs.old runs.new words.old words.new) }
{
    match raw {
        Raw::No => told_message(words, alloc, side, place, runs, octets),
        Raw::Next(left) => told_left(alloc, octets, left),
        Raw::All => told_lost(alloc, octets),
    }
}

/// What is left of a direction when it has ended: a message that is cut off.
pub(crate) fn told_end(alloc: Global, octets: &[u8]) -> Result<Option<Told>, AllocError>
    ensures told { IfOk result (λ o. IfSome o (IsEnd octets.now)) }
    ensures none { IfOk result (λ o. IfNone o (octets.now ≡ [])) }
{
    if octets.is_empty() {
        return Ok(None);
    }
    let words = strange(alloc, Unread::CutMessage, octets)?;
    Ok(Some(told_whole(octets.len(), words)))
}
