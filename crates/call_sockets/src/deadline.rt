//! The time that is left.

use std::time::{Clock, Duration, Instant};

/// A time that began at an instant. Of a clock that can't be read it never passes.
#[derive(Drop)]
pub(crate) struct Deadline<'r, R: Clock> {
    clock: &'r R,
    since: Option<Instant>,
    wait: Duration,
}

impl<'r, R: Clock> Deadline<'r, R> {
    /// So many seconds from now on.
    pub(crate) fn new(clock: &'r R, seconds: u32) -> Deadline<'r, R> {
        Deadline {
            clock,
            since: Instant::now(clock).ok(),
            wait: Duration::from_secs(u64::from(seconds)),
        }
    }

    /// The same instant, for another to ask.
    pub(crate) fn same(&self) -> Deadline<'r, R> {
        Deadline {
            clock: self.clock,
            since: self.since,
            wait: self.wait,
        }
    }

    /// What is left; none where all has passed.
    pub(crate) fn left(&self) -> Option<Duration> {
        let passed = match (self.since, Instant::now(self.clock)) {
            (Some(since), Ok(now)) => now.duration_since(since),
            _ => Duration::ZERO,
        };
        let left = self.wait.saturating_sub(passed);
        if left.is_zero() { None } else { Some(left) }
    }
}
