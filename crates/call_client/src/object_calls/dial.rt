//! Connections to servers.

ghost use Rattle.std.specs.Prelude.{◌≡◌, ◌∷◌, ◌++◌, [], List, IfErr, IfOk};
ghost use Rattle.iiop_broker.specs.Outcomes.{Ends, ends};
ghost use Rattle.call_client.specs.Lines.{Line, made, vain_of};

use iiop_broker::{Input, Output};

/// Why there is no connection.
#[derive(Clone, Copy, Debug, PartialEq, Eq)]
pub enum DialFault {
    /// None can be made.
    NotReached,
    /// Nothing was dialled.
    NoMemory,
}

/// Makes connections to servers, one after the other. It tells which port of which host was dialled
/// each time, with what the reader and the writer of the connection told then, if one was made, and
/// which list of what those that were handed back told it may have.
pub trait Dial {
    type Reader: Input + Drop;

    type Writer: Output + Drop;

    ghost lines: { Self → List Line };

    ghost went: { Self → List Ends → Type 0 };

    /// A connection to a port of a host: its reader and its writer.
    ///
    /// # Errors
    /// No connection can be made; want of memory, and then nothing was dialled.
    fn dial(&mut self, host: &[u8], port: u16) -> Result<(Self::Reader, Self::Writer), DialFault>
        ensures made { IfOk result (λ it. lines self.new ≡ lines self.old
            ++ made host.now port (ends (Self.Reader.left it.0) (Self.Writer.written it.1) (Self.Reader.failure it.0)
            (Self.Writer.failure it.1)) ∷ []) }
        ensures missed { IfErr result (λ fault. lines self.new ≡ lines self.old ++ vain_of fault host.now port) }
        ensures went { (all : List Ends) → went self.old all → went self.new all };

    /// Takes back the connection that was made last.
    fn hang_up(&mut self, reader: Self::Reader, writer: Self::Writer)
        ensures lines { lines self.new ≡ lines self.old }
        ensures went { (all : List Ends) → went self.old all → went self.new (all
            ++ ends (Self.Reader.left reader) (Self.Writer.written writer) (Self.Reader.failure reader)
            (Self.Writer.failure writer) ∷ []) };
}
