//! Why a command isn't answered.

ghost use Rattle.std.specs.Prelude.{◌≡◌};
ghost use Rattle.command_tables.specs.declared.refusal.Refusal.TheVariants.{NoMemory};
ghost use Rattle.command_tables.specs.Refusal.{refusal_of_check, refusal_of_file, refusal_of_reference, refusal_of_run, refusal_of_table, refusal_of_text};

use crate::escaped::Escaped;
use marshal_program::TableFault;
use position_checker::{CheckFault, FileFault};
use program_runner::RunFault;
use reference_texts::ReferenceFault;
use std::alloc::AllocError;
use thiserror::Error;
use value_text::{ReadFault, Refusal as TextFault};

/// A refusal has as its text the line that the program puts behind its name.
#[derive(Debug, Drop, Error)]
pub enum Refusal<'a> {
    #[error("cannot read {file}")]
    Unread { file: &'a str },
    #[error("cannot write {file}")]
    Unwritten { file: &'a str },
    /// The octets are no table's.
    #[error(transparent)]
    NoTable(TableFault),
    /// The table isn't right.
    #[error(transparent)]
    NotRight(CheckFault),
    /// The file has more octets than one may have.
    #[error("too long")]
    TooLong,
    /// The table has no type of that name.
    #[error("no type {}", Escaped(.name))]
    NoType { name: &'a str },
    /// An odd number of digits, or a character that is none.
    #[error("bad hex")]
    BadHex,
    /// A text says no value of its type.
    #[error("{} line {} column {}", .0.wanted, .0.place.line, .0.place.column)]
    Unsaid(TextFault),
    /// The tape or the octets are no value's.
    #[error(transparent)]
    Refused(RunFault),
    /// A word for an object without an equals sign, or without a key before it.
    #[error("bad object")]
    BadObject,
    /// The table has no interface of that name.
    #[error("no interface {}", Escaped(.name))]
    NoInterface { name: &'a str },
    /// There is no reference with these parts.
    #[error(transparent)]
    NoReference(ReferenceFault),
    #[error("no memory")]
    NoMemory,
}

impl<'a> From<AllocError> for Refusal<'a> {
    ghost from_gives = { λ _ refusal. refusal ≡ NoMemory };

    fn from(_error: AllocError) -> Refusal<'a> {
        Refusal::NoMemory
    }
}

impl<'a> From<RunFault> for Refusal<'a> {
    ghost from_gives = { λ fault refusal. refusal ≡ refusal_of_run fault };

    fn from(fault: RunFault) -> Refusal<'a> {
        match fault {
            RunFault::NoMemory => Refusal::NoMemory,
            fault => Refusal::Refused(fault),
        }
    }
}

impl<'a> From<TableFault> for Refusal<'a> {
    ghost from_gives = { λ fault refusal. refusal ≡ refusal_of_file fault };

    fn from(fault: TableFault) -> Refusal<'a> {
        match fault {
            TableFault::NoMemory => Refusal::NoMemory,
            fault => Refusal::NoTable(fault),
        }
    }
}

impl<'a> From<FileFault> for Refusal<'a> {
    ghost from_gives = { λ fault refusal. refusal ≡ refusal_of_table fault };

    fn from(fault: FileFault) -> Refusal<'a> {
        match fault {
            FileFault::Unspelled(fault) => Refusal::NoTable(fault),
            FileFault::TooLong => Refusal::TooLong,
            FileFault::NoMemory => Refusal::NoMemory,
        }
    }
}

impl<'a> From<CheckFault> for Refusal<'a> {
    ghost from_gives = { λ fault refusal. refusal ≡ refusal_of_check fault };

    fn from(fault: CheckFault) -> Refusal<'a> {
        match fault {
            CheckFault::NoMemory => Refusal::NoMemory,
            fault => Refusal::NotRight(fault),
        }
    }
}

impl<'a> From<ReferenceFault> for Refusal<'a> {
    ghost from_gives = { λ fault refusal. refusal ≡ refusal_of_reference fault };

    fn from(fault: ReferenceFault) -> Refusal<'a> {
        match fault {
            ReferenceFault::NoMemory => Refusal::NoMemory,
            fault => Refusal::NoReference(fault),
        }
    }
}

impl<'a> From<ReadFault> for Refusal<'a> {
    ghost from_gives = { λ fault refusal. refusal ≡ refusal_of_text fault };

    fn from(fault: ReadFault) -> Refusal<'a> {
        match fault {
            ReadFault::NoMemory => Refusal::NoMemory,
            ReadFault::Refused(fault) => Refusal::Unsaid(fault),
        }
    }
}
