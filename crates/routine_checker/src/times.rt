//! A routine that is done many times, one after the other.

ghost use Rattle.std.specs.Prelude.{◌≡◌, ◌<◌, ◌≤◌, IfSome};
ghost use Rattle.routine_checker.specs.Steps.{enters_times, times_left};

use crate::sets::{is_within, left};

/// How many times are followed one by one where the first places aren't met again soon. Behind them
/// the sets recur: where a relation on eight places is applied again and again, that begins after 50
/// times at the latest.
const FOLLOWED: u32 = 64;

/// The sets recur after 15 times at most, the order of a permutation of eight places.
const LONGEST_PERIOD: u32 = 16;

fn left_one_by_one(n: u32, exits: &[u8], places: u8) -> u8
    ensures { result ≡ times_left n exits.now places }
{
    let mut ends = places;
    for time in 0..n {
        ends = left(ends, exits);
    }
    ends
}

fn enters_one_by_one(n: u32, entry: u8, exits: &[u8], places: u8) -> bool
    ensures { result ≡ enters_times n entry exits.now places }
{
    let mut starts = places;
    for time in 0..n {
        if !is_within(starts, entry) {
            return false;
        }
        starts = left(starts, exits);
    }
    true
}

/// After how many times the same set is met again, if that is seen soon.
fn period(exits: &[u8], places: u8) -> Option<u32>
    ensures { IfSome result (λ n. (0 < n) × (n ≤ 16) × (times_left n exits.now places ≡ places)) }
{
    let mut ends = places;
    for time in 0..LONGEST_PERIOD {
        ends = left(ends, exits);
        if ends == places {
            return Some(time + 1);
        }
    }
    None
}

/// How often a routine has to be followed that is done `n` times behind the first ones.
fn left_over(n: u32, exits: &[u8], places: u8) -> u32
    ensures { times_left result exits.now places ≡ times_left n exits.now places }
{
    match period(exits, places) {
        Some(period) => n % period,
        None => n,
    }
}

/// As `times_left`, where the places aren't met again soon.
fn left_late(n: u32, exits: &[u8], places: u8) -> u8
    ensures { result ≡ times_left n exits.now places }
{
    if n <= FOLLOWED {
        return left_one_by_one(n, exits, places);
    }
    let behind = left_one_by_one(FOLLOWED, exits, places);
    let more = left_over(n - FOLLOWED, exits, behind);
    left_one_by_one(more, exits, behind)
}

/// Where a routine of these exits ends that is done `n` times, first at a place of the set.
pub fn times_left(n: u32, exits: &[u8], places: u8) -> u8
    ensures { result ≡ times_left n exits.now places }
{
    match period(exits, places) {
        Some(period) => left_one_by_one(n % period, exits, places),
        None => left_late(n, exits, places),
    }
}

/// The same of where it starts, behind the times that are followed.
fn enters_behind(n: u32, entry: u8, exits: &[u8], places: u8) -> bool
    ensures { result ≡ enters_times n entry exits.now places }
{
    match period(exits, places) {
        Some(period) if period <= n => { enters_one_by_one(period, entry, exits, places) }
        _ => enters_one_by_one(n, entry, exits, places),
    }
}

/// As `enters_times`, where the places aren't met again soon.
fn enters_late(n: u32, entry: u8, exits: &[u8], places: u8) -> bool
    ensures { result ≡ enters_times n entry exits.now places }
{
    if n <= FOLLOWED {
        return enters_one_by_one(n, entry, exits, places);
    }
    let behind = left_one_by_one(FOLLOWED, exits, places);
    enters_one_by_one(FOLLOWED, entry, exits, places)
        && enters_behind(n - FOLLOWED, entry, exits, behind)
}

/// Whether each time it starts at one of its entries.
pub fn enters_times(n: u32, entry: u8, exits: &[u8], places: u8) -> bool
    ensures { result ≡ enters_times n entry exits.now places }
{
    match period(exits, places) {
        Some(period) if period <= n => { enters_one_by_one(period, entry, exits, places) }
        _ => enters_late(n, entry, exits, places),
    }
}
