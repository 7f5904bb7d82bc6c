//! Where messages stand in the octets of a direction.

ghost use Rattle.std.specs.Prelude.{◌≡◌, ◌≤◌, length};
ghost use Rattle.giop_dumps.specs.Fronts.{IsWithin, front_of, is_of_1 as is_of_1_in, sized as sized_of};

use giop_messages::{FramingFault, HEAD_LEN, MAX_SIZE, is_giop, size_in};

/// What stands at the front of the octets of a direction.
#[derive(Clone, Copy, Debug, PartialEq, Eq)]
pub(crate) enum Front {
    /// Not yet a whole message.
    More,
    /// A message of GIOP 1.2 of so many octets, or a piece of one.
    Message(usize),
    /// A message of GIOP 1.0 or 1.1.
    Older(usize),
    /// A message of so many octets, more than are read as one.
    Long(u64),
    /// No message, and so it isn't known where the next one stands.
    Lost(FramingFault),
}

/// Whether it is of a version that is known, 1.0 to 1.2.
fn is_of_1(octets: &[u8]) -> bool
    requires { 12 ≤ length octets.now }
    ensures { result ≡ is_of_1_in octets.now }
{
    octets[4] == 1 && octets[5] < 3
}

/// A message of a size, of which these octets are there.
fn sized(octets: &[u8], size: u32) -> Front
    requires { 12 ≤ length octets.now }
    ensures is { result ≡ sized_of octets.now size }
    ensures within { IsWithin octets.now result }
{
    if size > MAX_SIZE {
        return Front::Long(HEAD_LEN as u64 + u64::from(size));
    }
    let len = HEAD_LEN + size as usize;
    if octets.len() < len {
        return Front::More;
    }
    if octets[5] == 2 {
        Front::Message(len)
    } else {
        Front::Older(len)
    }
}

/// What stands at the front of the octets of a direction.
pub(crate) fn front_in(octets: &[u8]) -> Front
    ensures is { result ≡ front_of octets.now }
    ensures within { IsWithin octets.now result }
{
    if octets.len() < HEAD_LEN {
        return Front::More;
    }
    if !is_giop(octets) {
        return Front::Lost(FramingFault::NotGiop);
    }
    if !is_of_1(octets) {
        return Front::Lost(FramingFault::Version);
    }
    sized(octets, size_in(octets))
}
