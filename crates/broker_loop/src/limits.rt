//! The limits of a connection.

ghost use Rattle.std.specs.Prelude.{◌≡◌, ◌↔◌, IfNone, IfSome, IsTrue};
ghost use Rattle.broker_loop.specs.declared.listener.Limit.{Limit};
ghost use Rattle.broker_loop.specs.inner.Waits.{IsOver, IsPassed, later, since_of, unwaited};

use crate::listener::Limit;

/// What holds of a connection when the time is told.
#[derive(Clone, Copy)]
pub(crate) struct Standing {
    /// No message is begun, no answer waits, and nothing has moved since it was told before.
    pub(crate) silent: bool,
    /// A message is begun and isn't whole.
    pub(crate) begun: bool,
    /// An answer isn't taken.
    pub(crate) untaken: bool,
}

/// Since when each of it has held, whenever the time was told.
#[derive(Clone, Copy)]
pub(crate) struct Waits {
    silent: Option<u64>,
    begun: Option<u64>,
    untaken: Option<u64>,
}

/// Since when it holds that held since then, if at all.
fn since(before: Option<u64>, holds: bool, now: u64) -> Option<u64>
    ensures { result ≡ since_of before holds now }
{
    if !holds {
        return None;
    }
    match before {
        Some(time) => Some(time),
        None => Some(now),
    }
}

/// Whether it has held for so long.
fn is_over(since: Option<u64>, now: u64, idle: u64) -> bool
    ensures { IsTrue result ↔ IsOver idle now since }
{
    match since {
        Some(time) => time <= now && now - time >= idle,
        None => false,
    }
}

impl Waits {
    /// Nothing holds yet.
    pub(crate) fn new() -> Waits
        ensures { result ≡ unwaited }
    {
        Waits {
            silent: None,
            begun: None,
            untaken: None,
        }
    }

    /// The same, where this holds now.
    pub(crate) fn at(self, standing: Standing, now: u64) -> Waits
        ensures { result ≡ later self standing now }
    {
        Waits {
            silent: since(self.silent, standing.silent, now),
            begun: since(self.begun, standing.begun, now),
            untaken: since(self.untaken, standing.untaken, now),
        }
    }

    /// A limit that is passed, if one is. Where an answer waits, its limit counts in place of the
    /// message's.
    pub(crate) fn passed(self, idle: u64, now: u64) -> Option<Limit>
        ensures one { IfSome result (λ limit. IsPassed idle now self limit) }
        ensures none { IfNone result ((limit : Limit) → IsPassed idle now self limit → ⊥) }
    {
        if is_over(self.untaken, now, idle) {
            return Some(Limit::Answer);
        }
        if self.untaken.is_none() && is_over(self.begun, now, idle) {
            return Some(Limit::Message);
        }
        if is_over(self.silent, now, idle) {
            return Some(Limit::Silence);
        }
        None
    }
}
