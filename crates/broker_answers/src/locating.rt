//! Answers to locate requests.

ghost use Rattle.std.specs.Prelude.{◌≡◌, ◌<◌, ◌^◌, IfOk};
ghost use Rattle.giop_messages.specs.Messages.{sought_of};
ghost use Rattle.broker_answers.specs.Serving.{IsLocated};

use crate::service::Service;
use giop::{GiopFault, Locate};
use std::alloc::{AllocError, Global};

/// The number of a locate request, which its reply repeats.
fn number(locate: &Locate) -> u32
    ensures is { result ≡ locate.now.id }
    ensures fits { locate.now.id < 2 ^ 32 }
{
    locate.id
}

impl Service {
    /// The answer whether an object has the key.
    pub(crate) fn locate(&self, alloc: Global, locate: &Locate) -> Result<Vec<u8>, AllocError>
        ensures { IfOk result (λ octets. IsLocated self.now (sought_of locate.now) octets.items) }
    {
        // its size, which a proof needs
        let _id = number(locate);
        let here = self.object_with(&locate.key).is_some();
        match self
            .giop
            .write_locate_reply(alloc, locate.order, locate.id, here)
        {
            Ok(octets) => Ok(octets),
            Err(fault) => match fault {
                GiopFault::NoMemory => Err(AllocError),
                _ => unreachable!(),
            },
        }
    }
}
