//! Why a call has no end.

ghost use Rattle.std.specs.Prelude.{◌≡◌};
ghost use Rattle.call_commands.specs.Causes.{cause_of};

use call_client::{CallFault, Cause};
use thiserror::Error;
use value_text::Refusal as TextFault;

/// A fault has as its text the line that a program puts behind its name.
#[derive(Clone, Copy, Debug, Drop, PartialEq, Eq, Error)]
pub enum CallRefusal {
    /// The object has no operation of the name.
    #[error("no operation")]
    NoOperation,
    /// The text says no arguments of the operation.
    #[error("{} line {} column {}", .0.wanted, .0.place.line, .0.place.column)]
    Unsaid(TextFault),
    #[error("{0}")]
    Unanswered(CallFault),
    /// The object is to be named in a form that there isn't, or in another one after it was named as its
    /// server asked.
    #[error("141 NeedsAddressingMode")]
    Readdressed,
}

impl CallRefusal {
    /// What it comes from.
    pub fn cause(&self) -> Cause
        ensures { result ≡ cause_of self.now }
    {
        match *self {
            CallRefusal::NoOperation | CallRefusal::Unsaid(_) | CallRefusal::Readdressed =>
                Cause::Input,
            CallRefusal::Unanswered(fault) => fault.cause(),
        }
    }
}
