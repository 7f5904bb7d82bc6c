//! How much was served.

ghost use Rattle.std.specs.Prelude.{◌≡◌};

use crate::tally::Tally;
use std::fmt::{self, Formatter};

/// How many connections came, how many requests on them, how many replies went out, and how many
/// requests and messages were refused: by a reply that is a system exception, or by MessageError.
#[derive(Clone, Copy, Debug, PartialEq, Eq)]
pub struct Totals {
    pub connections: u32,
    pub requests: u64,
    pub answers: u64,
    pub refused: u64,
}

impl Totals {
    pub(crate) fn new() -> Totals {
        Totals {
            connections: 0,
            requests: 0,
            answers: 0,
            refused: 0,
        }
    }

    /// The same, of so many connections.
    pub(crate) fn of(self, connections: u32) -> Totals
        ensures { result.connections ≡ connections }
    {
        Totals {
            connections,
            ..self
        }
    }

    /// What was read and written of a connection.
    pub(crate) fn add(&mut self, read: &Tally, written: &Tally) {
        self.requests = self.requests.saturating_add(read.requests);
        self.answers = self.answers.saturating_add(written.replies);
        self.refused = self.refused.saturating_add(written.refusals);
    }
}

impl fmt::Display for Totals {
    fn fmt<W: fmt::Write>(&self, f: &mut Formatter<W>) -> fmt::Result {
        write!(
            f,
            "connections {}, requests {}, answers {}, refused {}",
            self.connections, self.requests, self.answers, self.refused,
        )
    }
}
