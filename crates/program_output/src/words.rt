//! Gaps, and numbers in a byte order.

ghost use Rattle.std.specs.Prelude.{◌≡◌, ◌<◌, ◌≤◌, ◌+◌, ◌*◌, length, take, reverse};
ghost use Rattle.type_graph.specs.declared.width.Width.TheVariants.{Four};
ghost use Rattle.type_graph.specs.Words.{octets_in, plain_word, pad};

use type_graph::{Order, Width};

/// How many octets lie between a position and the next multiple of the width.
pub fn gap_at(place: u64, to: Width) -> usize
    ensures value { result ≡ pad place (octets_in to) }
    ensures short { result < 8 }
{
    let k = to.octets() as u64;
    (place.wrapping_neg() % k) as usize
}

/// The octets of an unsigned long.
pub fn long_octets(order: Order, n: u32) -> [u8; 4]
    ensures { result ≡ plain_word order Four n }
{
    match order {
        Order::Big => n.swap_bytes().to_le_bytes(),
        Order::Little => n.to_le_bytes(),
    }
}

/// By how much the number of eight octets is shifted that its first ones become its last, by their width. A table, since a
/// `match` is compiled to a jump.
static SHIFTS: [u8; 4] = [56, 48, 32, 0];

fn shift_of(width: Width) -> u8
    ensures { result + 8 * octets_in width ≡ 64 }
{
    SHIFTS[width as usize]
}

/// Octets that begin with those of the number of the width at the front, last first.
#[inline(always)]
pub fn turned_word(width: Width, octets: &[u8]) -> [u8; 8]
    requires { 8 ≤ length octets.now }
    ensures { take (octets_in width) result ≡ reverse (take (octets_in width) octets.now) }
{
    let word = [
        octets[0], octets[1], octets[2], octets[3], octets[4], octets[5], octets[6], octets[7],
    ];
    (u64::from_be_bytes(word) >> shift_of(width)).to_le_bytes()
}
