//! The run that is open behind a message.

ghost use Rattle.std.specs.Prelude.{◌≡◌};
ghost use Rattle.giop_messages.specs.Framing.{run_behind};

use giop_messages::{Run, cancels};

/// The run that is open behind a message which is no piece of one.
pub(crate) fn run_left(run: Option<Run>, message: &[u8]) -> Option<Run>
    ensures { result ≡ run_behind run message.now }
{
    match run {
        Some(run) => {
            if cancels(run.octets(), message) {
                None
            } else {
                Some(run)
            }
        }
        None => None,
    }
}
