//! What stands at the front of a stream.

ghost use Rattle.std.specs.Prelude.{◌≡◌, ◌≤◌, false, length, nat_eq, option_map};
ghost use Rattle.giop_messages.specs.Framing.{breaks as breaks_any, is_other as is_other_in};
ghost use Rattle.giop_messages.specs.Heads.{max_size};
ghost use Rattle.giop_messages.specs.Runs.{IsFront, IsMessage};

use crate::cancel::message_id;
use crate::fault::FramingFault;
use crate::head::{HEAD_LEN, Head};
use crate::joining::breaks_run;
use crate::run::Run;

/// The message at the front of a stream.
#[derive(Clone, Copy, Debug, PartialEq, Eq)]
pub struct Frame {
    pub head: Head,
    /// How many octets it has, those of the head included.
    pub len: usize,
}

/// Whether a message breaks a rule of runs.
fn breaks(run: Option<&Run>, head: &Head) -> bool
    requires { head.now.size ≤ max_size }
    ensures { result ≡ breaks_any (option_map (λ r. r.now) run.entry) head.now }
{
    let is_fragment = head.is_fragment();
    match run {
        None => is_fragment || (head.goes_on && head.is_cut()),
        Some(run) if is_fragment => breaks_run(run.octets(), head),
        Some(_) => head.goes_on,
    }
}

/// Whether the message is a fragment of another request.
fn is_other(run: Option<&Run>, head: &Head, message: &[u8]) -> bool
    requires message { IsMessage head.now message.now }
    requires kept { breaks_any (option_map (λ r. r.now) run) head.now ≡ false }
    ensures { result ≡ is_other_in (option_map (λ r. r.now) run.entry) head.now message.now }
{
    match run {
        Some(run) if head.is_fragment() => message_id(message) != run.id(),
        _ => false,
    }
}

/// The message at the front of a stream, while a run may be open; none where it isn't whole.
///
/// # Errors
/// What is wrong with the 12 octets at the front, as soon as they are there: of their head first,
/// then `BadFragment` where a rule of fragments is broken. A fragment with another request's number
/// is refused when it is whole.
pub fn frame_in(run: Option<&Run>, octets: &[u8]) -> Result<Option<Frame>, FramingFault>
    ensures { IsFront (option_map (λ r. r.now) run.entry) octets.now result }
{
    if octets.len() < HEAD_LEN {
        return Ok(None);
    }
    let head = match Head::read(octets) {
        Ok(head) => head,
        Err(fault) => return Err(fault),
    };
    if breaks(run, &head) {
        return Err(FramingFault::BadFragment);
    }
    let len = HEAD_LEN + head.size as usize;
    if octets.len() < len {
        return Ok(None);
    }
    if is_other(run, &head, &octets[..len]) {
        return Err(FramingFault::BadFragment);
    }
    Ok(Some(Frame { head, len }))
}
