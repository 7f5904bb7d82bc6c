//! A direction of a connection: what has come of it and isn't told.

ghost use Rattle.std.specs.Prelude.{◌≡◌};
ghost use Rattle.giop_dumps.specs.Lines.{fresh, waiting_of};

use crate::captures::Backlog;
use crate::open_runs::OpenRuns;
use std::alloc::Global;

/// How many of the next octets are none of a message that is read.
#[derive(Clone, Copy, Debug, PartialEq, Eq)]
pub(crate) enum Raw {
    No,
    Next(u64),
    All,
}

/// What is known of a direction.
#[derive(Drop)]
pub(crate) struct Direction {
    pub(crate) backlog: Backlog,
    pub(crate) raw: Raw,
    /// Messages of which pieces were told.
    pub(crate) open_runs: OpenRuns,
}

impl Direction {
    /// One of which nothing has come. Takes no memory.
    pub(crate) fn new(alloc: Global) -> Direction
        ensures { waiting_of result ≡ fresh }
    {
        Direction {
            backlog: Backlog::new(alloc),
            raw: Raw::No,
            open_runs: OpenRuns::new(alloc),
        }
    }
}
