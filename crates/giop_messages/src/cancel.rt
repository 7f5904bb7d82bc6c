//! What a cancel request ends.

ghost use Rattle.std.specs.Prelude.{◌≡◌, ◌≤◌, length};
ghost use Rattle.giop_messages.specs.Framing.{cancels as cancels_run, id_in, is_asking as is_asking_in};

use crate::head::{HEAD_LEN, number, order_in};

/// The numbers of types of messages (ISO/IEC 19500-2, GIOP message header).
const REQUEST: u8 = 0;

const CANCEL_REQUEST: u8 = 2;

const LOCATE_REQUEST: u8 = 3;

/// The number of the request that a message belongs to, which stands behind its head.
pub fn message_id(message: &[u8]) -> u32
    requires { 16 ≤ length message.now }
    ensures { result ≡ id_in message.now }
{
    number(order_in(message[6]), &message[HEAD_LEN..])
}

/// Whether it is a request or a locate request.
fn is_asking(message: &[u8]) -> bool
    requires { 16 ≤ length message.now }
    ensures { result ≡ is_asking_in message.now }
{
    message[7] == REQUEST || message[7] == LOCATE_REQUEST
}

/// Whether a message is a cancel request that ends a run of its direction: the run is of a request or a
/// locate request and has the same number.
#[tactic(auto, unfolding(crate::specs::Framing::cancels))]
pub fn cancels(run: &[u8], message: &[u8]) -> bool
    requires { 16 ≤ length run.now }
    ensures { result ≡ cancels_run run.now message.now }
{
    if message.len() < 16 || message[7] != CANCEL_REQUEST {
        return false;
    }
    is_asking(run) && message_id(message) == message_id(run)
}
