//! One connection that is let go of.

ghost use Rattle.std.specs.Prelude.{◌≡◌, ◌<◌, ◌≤◌, ◌↔◌, true, length, IsTrue};
ghost use Rattle.broker_sockets.specs.Parted.{HasSkipped, HasStepped, IsAsked, Parted, just_shut};

/// What a read of octets gave that nobody hears.
#[derive(Clone, Copy, Debug, PartialEq, Eq)]
pub enum Skip {
    Octets,
    /// None are there now.
    NotNow,
    /// None will come.
    End,
    Failed,
}

/// For how long what still comes is read: so many reads that give octets at most, and so many
/// milliseconds.
#[derive(Clone, Copy, Debug, PartialEq, Eq)]
pub struct Limits {
    pub reads: u64,
    pub millis: u64,
}

/// A connection to which nothing more is said.
pub trait Parting {
    ghost parted: { Self → Parted };

    /// Shuts the side that is written to, so that the peer sees the end behind the last answer.
    fn shut(&mut self)
        ensures { parted self.new ≡ just_shut (parted self.old).left };

    /// How many reads have given octets since.
    fn skips(&self) -> u64
        ensures { result ≡ (parted self.now).skips };

    /// Reads octets, which nobody hears.
    fn skip(&mut self, buffer: &mut [u8]) -> Skip
        requires shut { (parted self.old).shut ≡ true }
        requires room { 0 < length buffer.old }
        requires few { (parted self.old).skips < 18446744073709551615 }
        ensures skipped { HasSkipped (parted self.old) result (parted self.new) }
        ensures room { length buffer.new ≡ length buffer.old };

    /// Whether so many milliseconds have passed since it was shut, as far as it knows.
    fn is_late(&mut self, least: u64) -> bool
        ensures asked { IsAsked (parted self.old) (parted self.new) }
        ensures late { IsTrue result → least ≤ (parted self.new).late };
}

/// What became of one in its turn.
#[derive(Clone, Copy, Debug, PartialEq, Eq)]
pub(crate) enum Turn {
    Moved,
    Still,
    Over,
}

/// Reads of one once, unless it was read for long enough.
pub(crate) fn step<P: Parting>(connection: &mut P, buffer: &mut [u8], limits: Limits) -> Turn
    requires shut { (P.parted connection.old).shut ≡ true }
    requires room { 0 < length buffer.old }
    ensures stepped { HasStepped limits (P.parted connection.old) result (P.parted connection.new) }
    ensures room { length buffer.new ≡ length buffer.old }
{
    if connection.is_late(limits.millis) || connection.skips() >= limits.reads {
        return Turn::Over;
    }
    match connection.skip(buffer) {
        Skip::Octets => Turn::Moved,
        Skip::NotNow => Turn::Still,
        Skip::End => Turn::Over,
        Skip::Failed => Turn::Over,
    }
}
