//! Why a call is refused, and the numbers that C has of it.

ghost use Rattle.std.specs.Prelude.{◌≡◌};
ghost use Rattle.idlc_c.specs.Numbers.{length_asked, length_needed, length_of, number_of, number_of_answer, number_of_file, number_of_run, place_in_routine, place_of, place_of_check, place_of_node, place_told};

use crate::source_place::{SourcePlace, text_number};
use marshal_program::TableFault;
use position_checker::{CheckFault, RoutinePlace};
use program_runner::RunFault;
use value_text::Refusal as Unsaid;

#[derive(Drop)]
pub(crate) enum Refusal {
    NoMemory,
    /// The handle has no table.
    NotLoaded,
    /// No type of the table has the name or the node, or no name has the place.
    NotNamed,
    /// What is to be handed over is longer than the room for it.
    NoRoom { needed: usize },
    /// There are more octets than a table file may have.
    TooLong,
    /// The octets are no table's.
    NoTable(TableFault),
    /// The table isn't right.
    NotRight(CheckFault),
    /// The tape or the octets are no value's.
    NoValue(RunFault),
    /// The text says no value.
    NoText(Unsaid),
}

/// The number of a refusal, and where a table isn't right. What doesn't belong to a refusal is 0.
#[repr(C)]
#[derive(Drop)]
pub struct RefusalPlace {
    pub number: u32,
    /// 0 for the first program of the table, 1 for the second.
    pub program: u32,
    pub routine: u32,
    /// The number of an instruction, or of an entry.
    pub place: u32,
    pub node: u32,
}

impl RefusalPlace {
    fn in_routine(number: u32, at: RoutinePlace, place: u32) -> RefusalPlace
        ensures { result ≡ place_in_routine number at place }
    {
        RefusalPlace {
            number,
            program: at.program as u32,
            routine: at.routine,
            place,
            node: 0,
        }
    }

    fn of_node(number: u32, node: u32) -> RefusalPlace
        ensures { result ≡ place_of_node number node }
    {
        RefusalPlace {
            number,
            program: 0,
            routine: 0,
            place: 0,
            node,
        }
    }

    fn of_fault(fault: &CheckFault) -> RefusalPlace
        ensures { result ≡ place_of_check fault.now }
    {
        match *fault {
            CheckFault::WrongWork { at, instr } => RefusalPlace::in_routine(80, at, instr),
            CheckFault::WrongPadding { at, instr } => RefusalPlace::in_routine(81, at, instr),
            CheckFault::EntryOutside { at, instr } => RefusalPlace::in_routine(82, at, instr),
            CheckFault::ExitsTooSmall { at, entry } => RefusalPlace::in_routine(83, at, entry),
            CheckFault::NoRoutine { node } => RefusalPlace::of_node(84, node),
            CheckFault::NamedEntryNotFull { node } => RefusalPlace::of_node(85, node),
            CheckFault::NoMemory => RefusalPlace::of_node(42, 0),
        }
    }

    pub(crate) fn of(refusal: &Refusal) -> RefusalPlace
        ensures { result ≡ place_of refusal.now }
    {
        match refusal {
            Refusal::NotRight(fault) => RefusalPlace::of_fault(fault),
            other => RefusalPlace::of_node(other.number(), 0),
        }
    }
}

fn file_number(fault: &TableFault) -> u32
    ensures { result ≡ number_of_file fault.now }
{
    match fault {
        TableFault::NotATable => 50,
        TableFault::Version => 51,
        TableFault::BadNumber => 52,
        TableFault::RankRises => 53,
        TableFault::Trailing => 54,
        TableFault::EmptyRoutine => 55,
        TableFault::NoMemory => 42,
    }
}

fn run_number(fault: &RunFault) -> u32
    ensures { result ≡ number_of_run fault.now }
{
    match fault {
        RunFault::Short => 60,
        RunFault::BadBool => 61,
        RunFault::BadEnum => 62,
        RunFault::BadLength => 63,
        RunFault::NoTerminator => 64,
        RunFault::ZeroInside => 65,
        RunFault::OverBound => 66,
        RunFault::TooDeep => 67,
        RunFault::TapeLeft => 68,
        RunFault::NoMemory => 42,
    }
}

impl Refusal {
    pub(crate) fn number(&self) -> u32
        ensures { result ≡ number_of self.now }
    {
        match self {
            Refusal::NoMemory => 42,
            Refusal::NotLoaded => 43,
            Refusal::NotNamed => 44,
            Refusal::NoRoom { needed: _ } => 45,
            Refusal::TooLong => 46,
            Refusal::NoTable(fault) => file_number(fault),
            Refusal::NotRight(fault) => RefusalPlace::of_fault(fault).number,
            Refusal::NoValue(fault) => run_number(fault),
            Refusal::NoText(unsaid) => text_number(unsaid.wanted),
        }
    }
}

/// The number of a refusal. Where there is no room, its length is what would have been handed over.
#[cold]
#[inline(never)]
fn refused(refusal: Refusal, len: &mut usize) -> u32
    ensures number { result ≡ number_of refusal }
    ensures length { len.new ≡ length_needed refusal len.old }
{
    if let Refusal::NoRoom { needed } = refusal {
        *len = needed;
    }
    refusal.number()
}

/// The number of an answer. Where there is no room, its length is what would have been handed over.
pub(crate) fn done(answer: Result<(), Refusal>, len: &mut usize) -> u32
    ensures number { result ≡ number_of_answer answer }
    ensures length { len.new ≡ length_asked answer len.old }
{
    match answer {
        Ok(()) => 0,
        Err(refusal) => refused(refusal, len),
    }
}

/// The number of an answer. Its length is that of what was handed over, or would have been.
pub(crate) fn status_of(answer: Result<usize, Refusal>, len: &mut usize) -> u32
    ensures number { result ≡ number_of_answer answer }
    ensures length { len.new ≡ length_of answer len.old }
{
    match answer {
        Ok(written) => {
            *len = written;
            0
        }
        Err(refusal) => refused(refusal, len),
    }
}

/// The same of an answer about a text, with the place where the text was refused.
pub(crate) fn told_at(
    answer: Result<usize, Refusal>,
    len: &mut usize,
    place: &mut SourcePlace,
) -> u32
    ensures number { result ≡ number_of_answer answer }
    ensures length { len.new ≡ length_of answer len.old }
    ensures place { place.new ≡ place_told answer place.old }
{
    if let Err(Refusal::NoText(unsaid)) = &answer {
        *place = SourcePlace::of_text(*unsaid);
    }
    status_of(answer, len)
}
