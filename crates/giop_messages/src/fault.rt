//! Why octets are no message, and why a message isn't written.

ghost use Rattle.std.specs.Prelude.{◌≡◌};
ghost use Rattle.giop_messages.specs.declared.fault.GiopFault.TheVariants.{NoMemory};
ghost use Rattle.giop_messages.specs.Faults.{framing_as};

use std::alloc::{AllocError, AllocFailed};
use thiserror::Error;

/// Why no message stands at the front of a stream. A fault has its number and name as its text.
#[derive(Clone, Copy, Debug, PartialEq, Eq, Error)]
pub enum FramingFault {
    /// The first letters aren't `GIOP`.
    #[error("90 NotGiop")]
    NotGiop,
    /// Another version than 1.2.
    #[error("91 Version")]
    Version,
    /// More than 1,048,576 octets behind the head.
    #[error("92 TooLong")]
    TooLong,
    /// An unknown type, or one that no fragments may follow.
    #[error("93 BadHead")]
    BadHead,
    /// A rule of fragments is broken.
    #[error("97 BadFragment")]
    BadFragment,
}

/// A numbered fault has its number and name as its text.
#[derive(Clone, Copy, Debug, PartialEq, Eq, Error)]
pub enum GiopFault {
    /// The first letters aren't `GIOP`.
    #[error("90 NotGiop")]
    NotGiop,
    /// Another version than 1.2.
    #[error("91 Version")]
    Version,
    /// More than 1,048,576 octets behind the head.
    #[error("92 TooLong")]
    TooLong,
    /// A head, or a header behind it, that isn't of its type.
    #[error("93 BadHead")]
    BadHead,
    /// A tape that is no value's of the body's node.
    #[error("96 BadBody")]
    BadBody,
    /// A rule of fragments is broken.
    #[error("97 BadFragment")]
    BadFragment,
    #[error("no memory")]
    NoMemory,
}

impl From<FramingFault> for GiopFault {
    ghost from_gives = { λ framing fault. fault ≡ framing_as framing };

    fn from(fault: FramingFault) -> GiopFault {
        match fault {
            FramingFault::NotGiop => GiopFault::NotGiop,
            FramingFault::Version => GiopFault::Version,
            FramingFault::TooLong => GiopFault::TooLong,
            FramingFault::BadHead => GiopFault::BadHead,
            FramingFault::BadFragment => GiopFault::BadFragment,
        }
    }
}

impl From<AllocError> for GiopFault {
    ghost from_gives = { λ _ fault. fault ≡ NoMemory };

    fn from(_error: AllocError) -> GiopFault {
        GiopFault::NoMemory
    }
}

impl<T: Drop> From<AllocFailed<T>> for GiopFault {
    ghost from_gives = { λ _ fault. fault ≡ NoMemory };

    fn from(_error: AllocFailed<T>) -> GiopFault {
        GiopFault::NoMemory
    }
}
