//! Where octets come from and go to.

ghost use Rattle.std.specs.Prelude.{◌≡◌, ◌<◌, ◌≤◌, ◌||◌, ℕ, Bool, true, List, [], Option, length, take, IfOk, OnOk, OnErr};
ghost use Rattle.iiop_broker.specs.Ends.{Adds, Gives, IsEmpty, is_stuck};

/// A call failed.
#[derive(Clone, Copy, Debug, PartialEq, Eq)]
pub struct Failed;

/// Where octets come from. It tells the octets that are left, or nothing of them, and whether a
/// call has failed.
pub trait Input {
    ghost left: { Self → Option (List ℕ) };

    ghost failure: { Self → Bool };

    /// Reads octets into the buffer, at most as many as it has room for; 0 at the end.
    ///
    /// # Errors
    /// The call failed, and nothing was read.
    fn read(&mut self, buffer: &mut [u8]) -> Result<usize, Failed>
        ensures room { length buffer.new ≡ length buffer.old }
        ensures within { IfOk result (λ n. n ≤ length buffer.old) }
        ensures given { IfOk result (λ n. Gives (left self.old) (take n buffer.new) (left self.new)) }
        ensures end { IfOk result (λ n. n ≡ 0 → 0 < length buffer.old → IsEmpty (left self.new)) }
        ensures sound { OnOk result (failure self.new ≡ failure self.old) }
        ensures kept { OnErr result (Gives (left self.old) [] (left self.new)) }
        ensures failed { OnErr result (failure self.new ≡ true) };
}

/// Where octets go to. It tells the octets that were written, or nothing of them, and whether a
/// call has failed.
pub trait Output {
    ghost written: { Self → Option (List ℕ) };

    ghost failure: { Self → Bool };

    /// Writes octets, and tells how many it took. It fails too where it takes none of some.
    ///
    /// # Errors
    /// The call failed, and nothing was written.
    fn write(&mut self, octets: &[u8]) -> Result<usize, Failed>
        ensures within { IfOk result (λ n. n ≤ length octets.now) }
        ensures written { IfOk result (λ n. Adds (written self.old) (take n octets.now) (written self.new)) }
        ensures stuck { IfOk result (λ n. failure self.new ≡ (failure self.old || is_stuck octets.now n)) }
        ensures kept { OnErr result (Adds (written self.old) [] (written self.new)) }
        ensures failed { OnErr result (failure self.new ≡ true) };
}
