//! Accepts that fail.

use std::time::{Clock, Duration, Instant};

/// So many accepts may fail one after the other.
const MOST: u32 = 600;

/// And so often one is tried.
pub(crate) const TRIES: u32 = MOST + 1;

/// So many milliseconds are let pass behind one that failed.
pub(crate) const PAUSE: u64 = 100;

/// How many accepts failed one after the other, while no connection was there, and when the last did;
/// the first of all is told.
#[derive(Drop)]
pub(crate) struct Misses {
    is_told: bool,
    has_failed: bool,
    count: u32,
    last: Option<Instant>,
}

impl Misses {
    pub(crate) fn new() -> Misses {
        Misses {
            is_told: false,
            has_failed: false,
            count: 0,
            last: None,
        }
    }

    /// One didn't fail.
    pub(crate) fn clear(&mut self) {
        self.has_failed = false;
        self.count = 0;
        self.last = None;
    }

    /// One failed.
    fn note<R: Clock + Eprint>(&mut self, rt: &R) {
        if !self.is_told {
            let _ = eprintln!(rt; "idlc: no connection can be accepted, trying again");
            self.is_told = true;
        }
        self.has_failed = true;
        self.last = Instant::now(rt).ok();
    }

    /// One failed while no connection was there: whether it may be tried again.
    pub(crate) fn add<R: Clock + Eprint>(&mut self, rt: &R) -> bool {
        self.note(rt);
        self.count = self.count.saturating_add(1);
        self.count <= MOST
    }

    /// One failed while connections were there: it is tried again for as long as they are.
    pub(crate) fn wait_out<R: Clock + Eprint>(&mut self, rt: &R) {
        self.note(rt);
        self.count = 0;
    }

    /// Whether one failed just now, so that it isn't tried again yet.
    pub(crate) fn is_fresh<R: Clock>(&self, rt: &R) -> bool {
        match (self.last, Instant::now(rt)) {
            (Some(last), Ok(now)) => now.duration_since(last) < Duration::from_millis(PAUSE),
            _ => false,
        }
    }

    /// Whether one has failed since one didn't.
    pub(crate) fn is_some(&self) -> bool {
        self.has_failed
    }
}
