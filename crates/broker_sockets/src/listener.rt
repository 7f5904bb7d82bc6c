//! Where connections come from with calls that wait, and to which they are handed back.

ghost use Rattle.std.specs.Prelude.{◌≡◌, ◌∷◌, ◌++◌, [], Bool, List, true, false, IfOk, OnErr};
ghost use Rattle.iiop_broker.specs.Outcomes.{Ends, ends};
ghost use Rattle.broker_sockets.specs.Visits.{IsShutAt, Went, went_as};

use broker_loop::Listener;
use iiop_broker::{Failed, Input, Output, StreamFault};

/// The side of a connection that is written to, and can be shut. It tells whether it is.
pub trait Closing: Output {
    ghost shut: { Self → Bool };

    /// Shuts it, so that the peer sees the end behind what was written.
    fn shut(&mut self)
        ensures shut { shut self.new ≡ true }
        ensures written { Self.written self.new ≡ Self.written self.old }
        ensures failure { Self.failure self.new ≡ Self.failure self.old };
}

/// Where connections come from, one after the other, with calls that wait. It tells besides which
/// list of those that were handed back it may have.
pub trait BlockingListener: Listener {
    type Reader: Input + Drop;

    type Writer: Closing + Drop;

    ghost went: { Self → List Went → Type 0 };

    /// The next connection: its reader and its writer, of which no call has failed.
    ///
    /// # Errors
    /// No connection came.
    fn accept(&mut self) -> Result<(Self::Reader, Self::Writer), Failed>
        ensures came { IfOk result (λ it. Self.came self.new ≡ Self.came self.old
            ++ ends (Self.Reader.left it.0) (Self.Writer.written it.1) (Self.Reader.failure it.0)
            (Self.Writer.failure it.1) ∷ []) }
        ensures reading { IfOk result (λ it. Self.Reader.failure it.0 ≡ false) }
        ensures writing { IfOk result (λ it. Self.Writer.failure it.1 ≡ false) }
        ensures kept { OnErr result (Self.came self.new ≡ Self.came self.old) }
        ensures failed { OnErr result (Self.failure self.new ≡ true) }
        ensures went { (all : List Went) → went self.old all → went self.new all }
        ensures port { Self.port self.new ≡ Self.port self.old };

    /// Takes back the connection that came last, and how its stream ended. It is shut, unless a call
    /// on it failed; what still comes may be read, so that the last answer isn't lost.
    fn hand_back(
        &mut self,
        reader: Self::Reader,
        writer: Self::Writer,
        end: Result<(), StreamFault>,
    )
        requires { IsShutAt end (Self.Writer.shut writer) }
        ensures came { Self.came self.new ≡ Self.came self.old }
        ensures went { (all : List Went) → went self.old all → went self.new (all
            ++ went_as (ends (Self.Reader.left reader) (Self.Writer.written writer) (Self.Reader.failure reader)
            (Self.Writer.failure writer)) end ∷ []) }
        ensures port { Self.port self.new ≡ Self.port self.old };

    ghost listening: { (before after : Self) → Self.keeps before after → (all : List Went) → went before all
        → went after all };
}
