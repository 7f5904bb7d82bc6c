//! Why a run of the program didn't do what was asked for.

ghost use Rattle.std.specs.Prelude.{◌≡◌, ◌≤◌};
ghost use Rattle.command_tables.specs.declared.refusal.Refusal.TheVariants.{NoMemory};
ghost use Rattle.idlc_main.specs.Fault.{fault_of, status_of_cause};
ghost use Rattle.idlc_main.specs.declared.fault.Fault.TheVariants.{Refused};

use broker_sockets::ServeFault;
use call_client::Cause;
use call_commands::CallRefusal;
use command_files::NamedFault;
use command_tables::{Plain, Refusal};
use command_words::Mistake;
use giop_dumps::DumpFault;
use giop_words::dump_commands::CaptureFault;
use idl_compiler::CompileFault;
use reference_listing::spelled_references::SpellingFault;
use std::alloc::AllocError;
use std::fmt;
use thiserror::Error;

/// A word for a refusal, a number where it begins with a digit.
#[derive(Clone, Copy)]
struct Meant<'a>(&'a str);

impl<'a> fmt::Display for Meant<'a> {
    fn fmt<W: fmt::Write>(&self, f: &mut fmt::Formatter<W>) -> fmt::Result {
        f.write_str(if self.0.starts_with(|c: char| c.is_ascii_digit()) {
            "number "
        } else {
            "name "
        })?;
        write!(f, "{}", Plain(self.0))
    }
}

/// The fault of a call, as a line.
#[derive(Clone, Copy)]
struct CallText<'f>(&'f CallRefusal);

impl fmt::Display for CallText<'_> {
    fn fmt<W: fmt::Write>(&self, f: &mut fmt::Formatter<W>) -> fmt::Result {
        match self.0.cause() {
            Cause::Input => write!(f, "{}", self.0),
            Cause::Socket => f.write_str("socket"),
            Cause::Memory => f.write_str("no memory"),
        }
    }
}

/// A fault has as its text the line that stands behind `idlc: ` on standard error, but for words.
#[derive(Debug, Drop, Error)]
pub enum Fault<'a> {
    /// The words aren't those of a command. The text is whole lines.
    #[error(transparent)]
    Words(Mistake),
    #[error("a word isn't UTF-8")]
    NotText,
    /// A file, a table or what was asked of it; want of memory.
    #[error(transparent)]
    Refused(Refusal<'a>),
    /// The IDL file, which was read as these octets, has no table.
    #[error("{fault}")]
    NotCompiled {
        fault: CompileFault,
        source: Vec<u8>,
    },
    /// A text spells no reference, in digits or as a URL.
    #[error(transparent)]
    NotSpelled(SpellingFault),
    /// A file is no capture, or was not told to its end.
    #[error(transparent)]
    NotDumped(CaptureFault<'a>),
    /// The object that is to be called has no operation of the name.
    #[error("no operation {}", Plain(.word))]
    NoOperation {
        word: &'a str,
    },
    /// The arguments are none, what the server said is no answer, or no connection can be made to the
    /// object that is to be called, or it was lost before the answer.
    #[error("{}", CallText(.0))]
    NotCalled(CallRefusal),
    /// There is no such object to serve, or the port can't be listened on, or a connection accepted.
    #[error(transparent)]
    NotServed(ServeFault<'a>),
    /// No refusal has the number or the name whose meaning is asked for.
    #[error("no refusal has the {}", Meant(.word))]
    NoRefusal {
        word: &'a str,
    },
    /// Standard output can't be written.
    #[error("cannot write")]
    Unwritten,
}

fn cause_status(cause: Cause) -> u8
    ensures { result ≡ status_of_cause cause }
{
    match cause {
        Cause::Input => 1,
        Cause::Socket => 3,
        Cause::Memory => 4,
    }
}

impl<'a> Fault<'a> {
    ghost use Rattle.idlc_main.specs.Fault.{status_of};

    /// The status with which the program ends: 1 for refused input, 2 for usage, 3 for files,
    /// sockets and standard output, 4 for want of memory.
    pub fn status(&self) -> u8
        ensures status { result ≡ status_of self.now }
        ensures range { (1 ≤ result) × (result ≤ 4) }
    {
        match self {
            Fault::Words(Mistake::NoMemory) => 4,
            Fault::Refused(Refusal::NoMemory) => 4,
            Fault::NotCompiled {
                fault: CompileFault::NoMemory,
                ..
            } => 4,
            Fault::NotSpelled(SpellingFault::NoMemory) => 4,
            Fault::NotDumped(CaptureFault::NoMemory) => 4,
            Fault::NotServed(ServeFault::NoMemory) => 4,
            Fault::Refused(Refusal::Unread { .. } | Refusal::Unwritten { .. })
            | Fault::NotDumped(CaptureFault::Unread { .. } | CaptureFault::CutShort(_))
            | Fault::NotServed(ServeFault::Socket | ServeFault::Unwritten)
            | Fault::Unwritten => 3,
            Fault::Words(_) | Fault::NotText | Fault::NoRefusal { .. } => 2,
            Fault::NotCalled(refusal) => cause_status(refusal.cause()),
            _ => 1,
        }
    }

    /// Whether standard output can't be written, of which no line tells.
    pub fn is_of_output(&self) -> bool {
        matches!(
            self,
            Fault::Unwritten
                | Fault::NotServed(ServeFault::Unwritten)
                | Fault::NotDumped(CaptureFault::CutShort(DumpFault::Unwritten))
        )
    }
}

impl<'a> From<AllocError> for Fault<'a> {
    ghost from_gives = { λ _ fault. fault ≡ Refused NoMemory };

    fn from(_error: AllocError) -> Fault<'a> {
        Fault::Refused(Refusal::NoMemory)
    }
}

impl<'a> From<NamedFault<'a>> for Fault<'a> {
    ghost from_gives = { λ named fault. fault ≡ fault_of named };

    fn from(fault: NamedFault<'a>) -> Fault<'a> {
        match fault {
            NamedFault::Refused(refusal) => Fault::Refused(refusal),
            NamedFault::NotCompiled { fault, source } => Fault::NotCompiled { fault, source },
        }
    }
}
