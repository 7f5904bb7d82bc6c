//! Sets of positions modulo 8: bit `p` of a set says whether the positions whose value modulo 8 is
//! `p` are among it.

ghost use Rattle.std.specs.Prelude.{◌≡◌, ◌<◌, ◌≤◌, ◌+◌, ◌%◌, ◌^◌, length, slice_index_or, if◌then◌else◌};
ghost use Rattle.routine_checker.specs.Sets.{has, is_within, moved, left, closure, gaps_agree, gaps_serve, multiples};
ghost use Rattle.routine_checker.specs.inner.Places.{agreeing, led, lined_up};
ghost use Rattle.type_graph.specs.Words.{octets_in, pad};

use type_graph::Width;

/// How many places there are.
const PLACES: u32 = 8;

/// The set of every position.
pub const EVERYWHERE: u8 = u8::MAX;

/// Whether the place is in the set.
pub fn has(set: u8, place: u32) -> bool
    requires { place < 8 }
    ensures { result ≡ has set place }
{
    (set >> place) & 1 == 1
}

/// The set of one place.
pub fn only(place: u32) -> u8
    requires { place < 8 }
    ensures { result ≡ 2 ^ place }
{
    1 << place
}

/// Whether each place of the set is in the other.
pub fn is_within(set: u8, other: u8) -> bool
    ensures { result ≡ is_within set other }
{
    set & other == set
}

/// The set of one place, if one of the places that lead to it is in the set.
fn led(set: u8, from: u8, to: u8) -> u8
    ensures { result ≡ led set from to }
{
    if set & from == 0 { 0 } else { to }
}

/// The places behind the gaps to the width.
fn lined_up(set: u8, width: Width) -> u8
    ensures { result ≡ lined_up width set }
{
    match width {
        Width::One => set,
        Width::Two => {
            led(set, 0x81, 0x01)
                | led(set, 0x06, 0x04)
                | led(set, 0x18, 0x10)
                | led(set, 0x60, 0x40)
        }
        Width::Four => led(set, 0xE1, 0x01) | led(set, 0x1E, 0x10),
        Width::Eight => led(set, 0xFF, 0x01),
    }
}

#[tactic(auto, using(crate::proofs::MaskLaws::moved_by_mask))]
fn moved_by(set: u8, width: Width, n: u32) -> u8
    requires { n < 8 }
    ensures { result ≡ moved set width n }
{
    lined_up(set, width).rotate_left(n)
}

/// Where octets end that start behind the gap to the width at a place of the set, `n` of them.
pub fn moved(set: u8, width: Width, n: u64) -> u8
    ensures { result ≡ moved set width n }
{
    moved_by(set, width, (n % 8) as u32)
}

/// Where a routine of these exits ends that starts at the place, if it is in the set.
fn left_from(set: u8, place: u32, exits: &[u8]) -> u8
    requires { place < 8 }
    ensures { result ≡ (if has set place then slice_index_or exits.now place 0 else 0) }
{
    if !has(set, place) {
        return 0;
    }
    match exits.get(place as usize) {
        Some(exit) => *exit,
        None => 0,
    }
}

/// Where a routine of these exits ends that starts at a place of the set.
pub fn left(set: u8, exits: &[u8]) -> u8
    ensures { result ≡ left set exits.now }
{
    let mut ends = 0;
    for place in 0..PLACES {
        ends |= left_from(set, place, exits);
    }
    ends
}

/// The places where a routine of these exits starts that is done again and again.
pub fn closure(exits: &[u8], set: u8) -> u8
    ensures { result ≡ closure 8 exits.now set }
{
    let mut starts = set;
    for round in 0..PLACES {
        let more = starts | left(starts, exits);
        if more == starts {
            return starts;
        }
        starts = more;
    }
    starts
}

/// The places at which the gaps to the two widths are equally long.
fn agreeing(made: Width, due: Width) -> u8
    ensures { result ≡ agreeing made due }
{
    match (made, due) {
        (Width::One, Width::One)
        | (Width::Two, Width::Two)
        | (Width::Four, Width::Four)
        | (Width::Eight, Width::Eight) => EVERYWHERE,
        (Width::One, Width::Two) | (Width::Two, Width::One) => 0x55,
        (Width::One, Width::Four) | (Width::Four, Width::One) => 0x11,
        (Width::One, Width::Eight) | (Width::Eight, Width::One) => 0x01,
        (Width::Two, Width::Four) | (Width::Four, Width::Two) => 0x99,
        (Width::Two, Width::Eight) | (Width::Eight, Width::Two) => 0x81,
        (Width::Four, Width::Eight) | (Width::Eight, Width::Four) => 0xE1,
    }
}

/// Whether the gap that is made is the one that is due, at each place of the set.
pub fn gaps_agree(set: u8, made: Width, due: Width) -> bool
    ensures { result ≡ gaps_agree set made due }
{
    is_within(set, agreeing(made, due))
}

/// Whether the gap that is made is none, or the one to the lead, at each place of the set.
pub fn gaps_serve(set: u8, made: Width, lead: Width) -> bool
    ensures { result ≡ gaps_serve set made lead }
{
    is_within(set, agreeing(made, Width::One) | agreeing(made, lead))
}

/// The multiples of the width.
pub fn multiples(width: Width) -> u8
    ensures { result ≡ multiples width }
{
    match width {
        Width::One => EVERYWHERE,
        Width::Two => 0x55,
        Width::Four => 0x11,
        Width::Eight => 0x01,
    }
}
