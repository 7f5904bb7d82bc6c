//! Why a table is refused.

ghost use Rattle.std.specs.Prelude.{◌≡◌};
ghost use Rattle.routine_checker.specs.declared.fault.CheckFault.TheVariants.{NoMemory};

use std::alloc::{AllocError, AllocFailed};
use std::fmt;
use thiserror::Error;

/// Where a routine stands.
#[derive(Clone, Copy, Debug, PartialEq, Eq)]
pub struct RoutinePlace {
    /// 0 for the first program of the table, 1 for the second.
    pub program: u8,
    pub routine: u32,
}

impl fmt::Display for RoutinePlace {
    fn fmt<W: fmt::Write>(&self, f: &mut fmt::Formatter<W>) -> fmt::Result {
        write!(f, "program {} routine {}", self.program, self.routine)
    }
}

/// A fault has its number and name as its text, with the place.
#[derive(Clone, Copy, Debug, PartialEq, Eq, Error)]
pub enum CheckFault {
    /// The routine doesn't do the work of its node from this instruction on.
    #[error("80 WrongWork {at} instruction {instr}")]
    WrongWork { at: RoutinePlace, instr: u32 },
    /// A gap before the work of this instruction isn't the one that belongs there.
    #[error("81 WrongPadding {at} instruction {instr}")]
    WrongPadding { at: RoutinePlace, instr: u32 },
    /// The instruction names a routine at a position where that may not start.
    #[error("82 EntryOutside {at} instruction {instr}")]
    EntryOutside { at: RoutinePlace, instr: u32 },
    /// From this entry the routine may end where its exits don't say so.
    #[error("83 ExitsTooSmall {at} entry {entry}")]
    ExitsTooSmall { at: RoutinePlace, entry: u32 },
    /// A node with a name has no routine in the program that the name uses.
    #[error("84 NoRoutine node {node}")]
    NoRoutine { node: u32 },
    /// A node with a name has no routine there that may start at every position.
    #[error("85 NamedEntryNotFull node {node}")]
    NamedEntryNotFull { node: u32 },
    #[error("no memory")]
    NoMemory,
}

impl From<AllocError> for CheckFault {
    ghost from_gives = { λ _ fault. fault ≡ NoMemory };

    fn from(_error: AllocError) -> CheckFault {
        CheckFault::NoMemory
    }
}
