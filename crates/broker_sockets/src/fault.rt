//! Why serving ends early.

ghost use Rattle.std.specs.Prelude.{◌≡◌};
ghost use Rattle.broker_sockets.specs.declared.fault.ServeFault.TheVariants.{NoMemory, Socket};

use broker_loop::Interruption;
use iiop_broker::Failed;
use std::alloc::AllocError;
use thiserror::Error;

/// A fault has as its text the line that a program puts behind its name.
#[derive(Clone, Copy, Debug, PartialEq, Eq, Error)]
pub enum ServeFault<'a> {
    /// No equals sign, or no key before it.
    #[error("bad object")]
    BadObject,
    /// The table has no interface of that name.
    #[error("no interface {name}")]
    NoInterface { name: &'a str },
    /// The port can't be listened on, or a connection can't be accepted.
    #[error("socket")]
    Socket,
    /// The line that tells of serving can't be written.
    #[error("cannot write")]
    Unwritten,
    #[error("no memory")]
    NoMemory,
}

impl<'a> From<AllocError> for ServeFault<'a> {
    ghost from_gives = { λ _ fault. fault ≡ NoMemory };

    fn from(_error: AllocError) -> ServeFault<'a> {
        ServeFault::NoMemory
    }
}

impl<'a> From<Failed> for ServeFault<'a> {
    ghost from_gives = { λ _ fault. fault ≡ Socket };

    fn from(_failed: Failed) -> ServeFault<'a> {
        ServeFault::Socket
    }
}

impl<'a> From<Interruption> for ServeFault<'a> {
    ghost from_gives = { λ _ fault. fault ≡ Socket };

    fn from(_interruption: Interruption) -> ServeFault<'a> {
        ServeFault::Socket
    }
}
