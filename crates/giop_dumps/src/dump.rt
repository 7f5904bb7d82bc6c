//! Both directions of a connection told, message by message.

ghost use Rattle.std.specs.Prelude.{◌≡◌, ◌≤◌, ◌<◌, ◌++◌, [], IfOk, MatchOption, OnOk, OnErr, length};
ghost use Rattle.std.specs.String.{string_bytes};
ghost use Rattle.giop_dumps.specs.Lines.{IsEndOf, IsPassed, IsStill, IsTold, IsToldEnd, IsToldOf, IsWaiting, fresh, line_of, of_other, of_side, waiting_of, with_octets};
ghost use Rattle.giop_dumps.specs.OpenRuns.{AreWithin};

use crate::captures::Side;
use crate::direction::{Direction, Raw};
use crate::front::{Front, front_in};
use crate::told::{Told, told_end, told_front};
use crate::words::Words;
use std::alloc::{AllocError, Global};
use std::marker::Model;

/// What came of both directions of a connection.
#[derive(Drop)]
pub struct Dump {
    first: Direction,
    second: Direction,
}

impl Model for Dump {
    ghost use Rattle.giop_dumps.specs.Lines.{Pending, waiting_of};

    ghost Value = { Pending };

    ghost view = { λ dump. record {
      first = waiting_of dump.first;
      second = waiting_of dump.second;
    } };
}

/// A line of the first direction.
fn first_line(alloc: Global, place: u64, count: usize, words: &str) -> Result<String, AllocError>
    ensures { IfOk result (λ text. string_bytes text ≡ line_of Side.First place count words.now) }
{
    format!(in alloc; "> {place} {count} {words}")
}

/// A line of the second.
fn second_line(alloc: Global, place: u64, count: usize, words: &str) -> Result<String, AllocError>
    ensures { IfOk result (λ text. string_bytes text ≡ line_of Side.Second place count words.now) }
{
    format!(in alloc; "< {place} {count} {words}")
}

/// A line of a direction: its mark, the place of the octets that it tells, how many they are, and what is
/// told of them.
fn line(
    alloc: Global,
    side: Side,
    place: u64,
    count: usize,
    words: &str,
) -> Result<String, AllocError>
    ensures { IfOk result (λ text. string_bytes text ≡ line_of side place count words.now) }
{
    match side {
        Side::First => first_line(alloc, place, count, words),
        Side::Second => second_line(alloc, place, count, words),
    }
}

/// Lets the octets go that are told, and gives the lines.
fn pass(alloc: Global, side: Side, own: &mut Direction, told: &Told) -> Result<String, AllocError>
    requires some { 0 < told.now.count }
    requires within { told.now.count ≤ length own.old.backlog.octets.items }
    ensures text { IfOk result (λ text. string_bytes text
        ≡ line_of side own.old.backlog.place told.now.count (string_bytes told.now.words)) }
    ensures passed { OnOk result (IsPassed told.now.count (waiting_of own.old) (waiting_of own.new)) }
    ensures raw { OnOk result (own.new.raw ≡ told.now.raw) }
    ensures runs { own.new.open_runs ≡ own.old.open_runs }
{
    let text = line(
        alloc,
        side,
        own.backlog.place,
        told.count,
        told.words.as_str(),
    )?;
    own.backlog.pass(told.count);
    own.raw = told.raw;
    Ok(text)
}

/// Tells what stands at the front of a direction.
fn tell_front<W: Words>(
    words: &mut W,
    alloc: Global,
    side: Side,
    own: &mut Direction,
) -> Result<Option<String>, AllocError>
    ensures { IfOk result (λ o. MatchOption o
        (IsWaiting words.old (waiting_of own.old) (waiting_of own.new) words.new)
        (λ text. IsToldOf W.says side words.old (waiting_of own.old) (waiting_of own.new) (string_bytes text)
        words.new)) }
{
    let octets = own.backlog.octets.as_slice();
    let place = own.backlog.place;
    match told_front(
        words,
        alloc,
        side,
        place,
        own.raw,
        &mut own.open_runs,
        octets,
    )? {
        Some(told) => Ok(Some(pass(alloc, side, own, &told)?)),
        None => Ok(None),
    }
}

/// Tells what is left of a direction.
fn tell_end(alloc: Global, side: Side, own: &mut Direction) -> Result<Option<String>, AllocError>
    ensures { IfOk result (λ o. MatchOption o (own.old.backlog.octets.items ≡ []) (λ text.
        IsEndOf side (waiting_of own.old) (waiting_of own.new) (string_bytes text))) }
{
    match told_end(alloc, own.backlog.octets.as_slice())? {
        Some(told) => Ok(Some(pass(alloc, side, own, &told)?)),
        None => Ok(None),
    }
}

/// Whether the message at the front of a direction is a reply to a request that wasn't told.
fn is_early<W: Words>(words: &W, side: Side, own: &Direction) -> bool {
    if own.raw != Raw::No {
        return false;
    }
    let octets = own.backlog.octets.as_slice();
    match front_in(octets) {
        Front::Message(count) => words.is_early(side, octets.split_at(count).0),
        _ => false,
    }
}

impl Dump {
    /// One of which nothing has come. Takes no memory.
    pub fn new(alloc: Global) -> Dump
        ensures first { result.first ≡ fresh }
        ensures second { result.second ≡ fresh }
    {
        Dump {
            first: Direction::new(alloc),
            second: Direction::new(alloc),
        }
    }

    /// Octets come behind those of a direction.
    ///
    /// # Errors
    /// Want of memory.
    pub fn add(&mut self, side: Side, octets: &[u8]) -> Result<(), AllocError>
        ensures added { OnOk result (of_side side self.new ≡ with_octets (of_side side self.old) octets.now) }
        ensures kept { OnErr result (of_side side self.new ≡ of_side side self.old) }
        ensures other { of_other side self.new ≡ of_other side self.old }
    {
        match side {
            Side::First => self.first.backlog.add(octets),
            Side::Second => self.second.backlog.add(octets),
        }
    }

    /// Tells what stands at the front of a direction; none where more octets have to come, and then nothing
    /// has changed.
    ///
    /// # Errors
    /// Want of memory. Then it isn't to be used on.
    pub fn tell<W: Words>(
        &mut self,
        words: &mut W,
        alloc: Global,
        side: Side,
    ) -> Result<Option<String>, AllocError>
        ensures { IfOk result (λ o. MatchOption o (IsStill side words.old self.old self.new words.new) (λ text.
            IsTold W.says side words.old self.old self.new (string_bytes text) words.new)) }
    {
        match side {
            Side::First => tell_front(words, alloc, side, &mut self.first),
            Side::Second => tell_front(words, alloc, side, &mut self.second),
        }
    }

    /// Tells what is left of a direction when no more octets come, all of whose messages were told.
    ///
    /// # Errors
    /// Want of memory. Then it isn't to be used on.
    pub fn tell_end(&mut self, alloc: Global, side: Side) -> Result<Option<String>, AllocError>
        ensures { IfOk result (λ o. MatchOption o ((of_side side self.old).octets ≡ []) (λ text.
            IsToldEnd side self.old self.new (string_bytes text))) }
    {
        match side {
            Side::First => tell_end(alloc, side, &mut self.first),
            Side::Second => tell_end(alloc, side, &mut self.second),
        }
    }

    /// How many messages of a direction are open: pieces of them were told, and their last ones weren't.
    pub fn open_count(&self, side: Side) -> usize
        ensures value { result ≡ length (of_side side self.now).open_runs }
        ensures few { AreWithin (of_side side self.now).open_runs }
    {
        match side {
            Side::First => self.first.open_runs.len(),
            Side::Second => self.second.open_runs.len(),
        }
    }

    /// Whether the message at the front of a direction is a reply to a request that wasn't told yet.
    pub(crate) fn is_early<W: Words>(&self, words: &W, side: Side) -> bool {
        match side {
            Side::First => is_early(words, side, &self.first),
            Side::Second => is_early(words, side, &self.second),
        }
    }
}
