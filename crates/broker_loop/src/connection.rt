//! Connections on which no call waits.

ghost use Rattle.std.specs.Prelude.{◌≡◌, ◌<◌, ◌≤◌, Bool, Option, true, length, take, IfNone, IfOk, IfSome, OnErr};
ghost use Rattle.iiop_broker.specs.Ends.{IsEmpty};
ghost use Rattle.iiop_broker.specs.Outcomes.{Ends};
ghost use Rattle.broker_loop.specs.Telling.{Got, HasRead, HasWritten, Took, Trace, noted, with_failed_read, with_failed_write};

use iiop_broker::Failed;

/// A connection of which a call moves octets at once or says that it can't now. It tells the octets
/// that are left and those that were written, or nothing of them, and whether a call has failed; and
/// what it noted: the octets that moved, and the times that its listener told, or nothing of these.
pub trait Connection {
    ghost told: { Self → Ends };

    ghost trace: { Self → Option Trace };

    ghost shut: { Self → Bool };

    /// Reads octets into the buffer, at most as many as it has room for; 0 at the end. None where
    /// none are there now.
    ///
    /// # Errors
    /// The call failed, and nothing was read.
    fn read(&mut self, buffer: &mut [u8]) -> Result<Option<usize>, Failed>
        ensures room { length buffer.new ≡ length buffer.old }
        ensures within { IfOk result (λ got. IfSome got (λ n. n ≤ length buffer.old)) }
        ensures given { IfOk result
            (λ got. IfSome got (λ n. HasRead (told self.old) (take n buffer.new) (told self.new))) }
        ensures noted { IfOk result
            (λ got. IfSome got (λ n. trace self.new ≡ noted (Got (take n buffer.new)) (trace self.old))) }
        ensures end { IfOk result (λ got. IfSome got (λ n. n ≡ 0 → 0 < length buffer.old
            → IsEmpty (told self.new).left)) }
        ensures not_now { IfOk result (λ got. IfNone got (told self.new ≡ told self.old)) }
        ensures none_noted { IfOk result (λ got. IfNone got (trace self.new ≡ trace self.old)) }
        ensures failed { OnErr result (told self.new ≡ with_failed_read (told self.old)) }
        ensures unnoted { OnErr result (trace self.new ≡ trace self.old) };

    /// Writes octets, and tells how many it took. None where it takes none now. It fails too where
    /// it takes 0 of some.
    ///
    /// # Errors
    /// The call failed, and nothing was written.
    fn write(&mut self, octets: &[u8]) -> Result<Option<usize>, Failed>
        ensures within { IfOk result (λ got. IfSome got (λ n. n ≤ length octets.now)) }
        ensures written { IfOk result
            (λ got. IfSome got (λ n. HasWritten (told self.old) octets.now n (told self.new))) }
        ensures noted { IfOk result
            (λ got. IfSome got (λ n. trace self.new ≡ noted (Took (take n octets.now)) (trace self.old))) }
        ensures not_now { IfOk result (λ got. IfNone got (told self.new ≡ told self.old)) }
        ensures none_noted { IfOk result (λ got. IfNone got (trace self.new ≡ trace self.old)) }
        ensures failed { OnErr result (told self.new ≡ with_failed_write (told self.old)) }
        ensures unnoted { OnErr result (trace self.new ≡ trace self.old) };

    /// Shuts the side that is written to, so that the peer sees the end behind what was written.
    fn shut(&mut self)
        ensures shut { shut self.new ≡ true }
        ensures told { told self.new ≡ told self.old }
        ensures unnoted { trace self.new ≡ trace self.old };
}
