//! Where connections come from and go to.

ghost use Rattle.std.specs.Prelude.{◌≡◌, ◌∷◌, ◌++◌, ◌+◌, ◌<◌, [], ℕ, Bool, true, List, Option, Some, max, IfNone, IfOk, IfSome, OnErr, OnOk};
ghost use Rattle.iiop_broker.specs.Outcomes.{Ends};
ghost use Rattle.broker_loop.specs.Telling.{IsNew, Told, noted};
ghost use Rattle.broker_loop.specs.Listening.{Stays};
ghost use Rattle.broker_loop.specs.Visits.{Gone, IsShutAt, gone};

use crate::connection::Connection;
use iiop_broker::Failed;

/// What lasts no longer on a connection than it was allowed.
#[derive(Clone, Copy, Debug, PartialEq, Eq)]
pub enum Limit {
    /// That nothing moves while no message is begun and no answer waits.
    Silence,
    /// That a message is begun and isn't whole.
    Message,
    /// That an answer isn't taken.
    Answer,
}

/// How a connection ended.
#[derive(Clone, Copy, Debug, PartialEq, Eq)]
pub enum End {
    /// All was read or the broker closed it, and all answers were written.
    Finished,
    /// A read or a write failed.
    Failed,
    /// Memory was wanted for it.
    GivenUp,
    /// It passed a limit.
    Late(Limit),
}

/// Has connections come to a port. It tells what each connection that came told then, the port that
/// is listened on, and whether a call has failed.
pub trait Listener {
    ghost came: { Self → List Ends };

    ghost port: { Self → Option ℕ };

    ghost failure: { Self → Bool };

    /// That it is as it was, but for the port. What that says each kind of listener tells.
    ghost keeps: { Self → Self → Type 0 };

    /// Has connections come to the port of the number. None has come by that.
    ///
    /// # Errors
    /// The port can't be listened on.
    fn listen(&mut self, number: u16) -> Result<(), Failed>
        ensures port { OnOk result (port self.new ≡ Some number) }
        ensures came { came self.new ≡ came self.old }
        ensures keeps { keeps self.old self.new };
}

/// Where connections come from on which no call waits, and to which they are handed back. It tells
/// besides which list of those that were handed back, by their numbers, it may have, how many are
/// there and how many were at the same time at most, and how often it has looked.
pub trait PolledListener: Listener {
    type Connection: Connection + Drop;

    ghost ended: { Self → List (ℕ × Gone) → Type 0 };

    ghost there: { Self → ℕ };

    ghost most: { Self → ℕ };

    ghost looks: { Self → ℕ };

    /// The next connection, or None where none has come now.
    ///
    /// # Errors
    /// No connection can come, and none is there.
    fn accept(&mut self) -> Result<Option<Self::Connection>, Failed>
        ensures came { IfOk result
            (λ got. IfSome got (λ it. Self.came self.new ≡ Self.came self.old ++ Self.Connection.told it ∷ [])) }
        ensures there { IfOk result (λ got. IfSome got (λ _. there self.new ≡ there self.old + 1)) }
        ensures most { IfOk result (λ got. IfSome got (λ _. most self.new ≡ max (most self.old) (there self.new))) }
        ensures not_now { IfOk result (λ got. IfNone got (Self.came self.new ≡ Self.came self.old)) }
        ensures as_many { IfOk result (λ got. IfNone got (there self.new ≡ there self.old)) }
        ensures no_more { IfOk result (λ got. IfNone got (most self.new ≡ most self.old)) }
        ensures new { IfOk result (λ got. IfSome got (λ it. IsNew (looks self.old) (Self.Connection.trace it))) }
        ensures kept { OnErr result (Self.came self.new ≡ Self.came self.old) }
        ensures still { OnErr result (most self.new ≡ most self.old) }
        ensures alone { OnErr result (there self.old ≡ 0) }
        ensures as_few { OnErr result (there self.new ≡ there self.old) }
        ensures failed { OnErr result (Self.failure self.new ≡ true) }
        ensures port { Self.port self.new ≡ Self.port self.old }
        ensures looks { looks self.new ≡ looks self.old }
        ensures ended { (all : List (ℕ × Gone)) → ended self.old all → ended self.new all };

    /// The time, in milliseconds. The connection notes it.
    fn time(&mut self, connection: &mut Self::Connection) -> u64
        ensures noted { Self.Connection.trace connection.new
            ≡ noted (Told (looks self.old) result) (Self.Connection.trace connection.old) }
        ensures told { Self.Connection.told connection.new ≡ Self.Connection.told connection.old }
        ensures came { Self.came self.new ≡ Self.came self.old }
        ensures port { Self.port self.new ≡ Self.port self.old }
        ensures stays { Stays ended there most looks self.old self.new };

    /// Takes back a connection that ended: which it was among those that came, and how it ended. It
    /// is shut, unless a call on it failed; what still comes may be read, so that the last answer
    /// isn't lost.
    fn hand_back(&mut self, number: u32, connection: Self::Connection, end: End)
        requires there { 0 < there self.old }
        requires shut { IsShutAt end (Self.Connection.shut connection) }
        ensures came { Self.came self.new ≡ Self.came self.old }
        ensures ended { (all : List (ℕ × Gone)) → ended self.old all
            → ended self.new (all
            ++ (number, gone (Self.Connection.told connection) (Self.Connection.trace connection) (looks self.old) end)
            ∷ []) }
        ensures there { there self.new + 1 ≡ there self.old }
        ensures most { most self.new ≡ most self.old }
        ensures port { Self.port self.new ≡ Self.port self.old }
        ensures looks { looks self.new ≡ looks self.old };

    /// Looks where octets may move: unless some moved just now, it waits until a connection may have
    /// come, or a call on one may move octets. It may come back before: nothing is concluded from it.
    fn look(&mut self, moved: bool)
        requires { looks self.old < 18446744073709551615 }
        ensures came { Self.came self.new ≡ Self.came self.old }
        ensures ended { (all : List (ℕ × Gone)) → ended self.old all → ended self.new all }
        ensures there { there self.new ≡ there self.old }
        ensures most { most self.new ≡ most self.old }
        ensures port { Self.port self.new ≡ Self.port self.old }
        ensures looks { looks self.new ≡ looks self.old + 1 };

    ghost listening: { (before after : Self) → Self.keeps before after → Stays ended there most looks before after };
}
