//! How long calls took.

use std::fmt;
use std::time::{Clock, Duration, Instant};

/// How many calls were made since an instant, and how long the shortest and the longest took. Of a clock
/// that can't be read no time passes.
#[derive(Drop)]
pub struct Times {
    count: u32,
    begun: Option<Instant>,
    since: Option<Instant>,
    /// When this was told last.
    told: Option<Instant>,
    all: Duration,
    least: Duration,
    most: Duration,
}

fn passed<R: Clock>(clock: &R, since: Option<Instant>) -> Duration {
    match (since, Instant::now(clock)) {
        (Some(since), Ok(now)) => now.duration_since(since),
        _ => Duration::ZERO,
    }
}

impl Times {
    pub fn new<R: Clock>(clock: &R) -> Times {
        let begun = Instant::now(clock).ok();
        Times {
            count: 0,
            begun,
            since: begun,
            told: begun,
            all: Duration::ZERO,
            least: Duration::MAX,
            most: Duration::ZERO,
        }
    }

    /// A call begins.
    pub fn begin<R: Clock>(&mut self, clock: &R) {
        self.since = Instant::now(clock).ok();
    }

    /// It has ended.
    pub fn end<R: Clock>(&mut self, clock: &R) {
        let one = passed(clock, self.since);
        self.count = self.count.saturating_add(1);
        self.all = passed(clock, self.begun);
        self.least = self.least.min(one);
        self.most = self.most.max(one);
    }

    /// Whether a second has passed since this was told, at first since the begin. Then it counts as told.
    pub fn is_due<R: Clock>(&mut self, clock: &R) -> bool {
        if passed(clock, self.told) < Duration::from_secs(1) {
            return false;
        }
        self.told = Instant::now(clock).ok();
        true
    }
}

/// So many in a second, where they took any time.
fn a_second(count: u32, all: Duration) -> u128 {
    let micros = all.as_micros();
    if micros == 0 {
        0
    } else {
        u128::from(count) * 1_000_000 / micros
    }
}

impl fmt::Display for Times {
    fn fmt<W: fmt::Write>(&self, f: &mut fmt::Formatter<W>) -> fmt::Result {
        write!(
            f,
            "{} calls, {} a second, each of {} to {} microseconds",
            self.count,
            a_second(self.count, self.all),
            self.least.as_micros(),
            self.most.as_micros()
        )
    }
}
