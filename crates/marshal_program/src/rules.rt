//! The tests of the rules that make a list of routines a program.

ghost use Rattle.std.specs.Prelude.{◌≡◌, ◌<◌, ◌≤◌, ◌↔◌, ℕ, All, IsTrue, false, length, option_to_list, slice_index_or};
ghost use Rattle.std.specs.List.{list_any};
ghost use Rattle.type_graph.specs.GraphRules.{IsWide};
ghost use Rattle.type_graph.specs.Value.{IsSignedIn};
ghost use Rattle.marshal_program.specs.ProgramRules.{IsDisc, IsInstr, AreLabels, AreSets, arms_of, named_by, called_by, is_work, IsLower, all_instrs};
ghost use Rattle.marshal_program.specs.inner.RuleTests.{AreWorks, HasNumbers, HasAllNumbers, IsMarked, NamesMarked, NamesWork, CallsLower};

use crate::instr::{Disc, Instr, Named, Routine};
use type_graph::{Arms, Width};

pub const MAX_ROUTINES: usize = 8192;

const MAX_INSTRS: usize = 65536;

const MAX_RANK: u32 = 63;

/// How many times `Times` may run a routine.
const MAX_TIMES: u32 = 1_048_576;

fn is_wide(width: Width) -> bool
    ensures { IsTrue result ↔ IsWide width }
{
    match width {
        Width::One => false,
        _ => true,
    }
}

fn is_disc(disc: Disc) -> bool
    ensures { IsTrue result ↔ IsDisc disc }
{
    match disc {
        Disc::Char | Disc::Boolean => true,
        Disc::Word { width, .. } => is_wide(width),
        Disc::Enum { n } => n > 0,
    }
}

fn are_sized(arms: &[(i128, u32)]) -> bool
    ensures { IsTrue result ↔ All (λ arm. IsSignedIn 16 arm.0) arms.now }
{
    arms.iter().all(|arm| {
        let _label = arm.0;
        true
    })
}

fn are_labels(arms: &Arms) -> bool
    ensures { IsTrue result ↔ AreLabels arms.now }
{
    arms.is_rising() && are_sized(arms.as_slice())
}

fn labels_in_range(count: usize, arms: &[(i128, u32)]) -> bool
    ensures { IsTrue result ↔ All (λ arm. arm.1 < count) arms.now }
{
    arms.iter().all(|arm| (arm.1 as usize) < count)
}

fn other_in_range(count: usize, otherwise: Option<u32>) -> bool
    ensures { IsTrue result ↔ All (λ number. number < count) (option_to_list otherwise) }
{
    match otherwise {
        None => true,
        Some(number) => (number as usize) < count,
    }
}

fn are_in_range(count: usize, names: Named<'_>) -> bool
    ensures { IsTrue result ↔ All (λ number. number < count) (arms_of names.entry.arms.now names.entry.other) }
{
    labels_in_range(count, names.arms) && other_in_range(count, names.other)
}

/// What the instruction says by itself is in range.
fn is_instr(instr: &Instr) -> bool
    ensures { IsTrue result ↔ IsInstr instr.now }
{
    match instr {
        Instr::Align { to } => is_wide(*to),
        Instr::Octets { n } | Instr::Bools { n } => *n > 0,
        Instr::Words { width, n } => is_wide(*width) && *n > 0,
        Instr::EnumWord { limit } => *limit > 0,
        Instr::Text { bound }
        | Instr::SeqOctets { bound }
        | Instr::SeqBools { bound }
        | Instr::SeqOf { bound, .. } => {
            let _bound = *bound;
            true
        }
        Instr::SeqWords { width, bound, .. } => {
            let _bound = *bound;
            is_wide(*width)
        }
        Instr::Times { n, .. } => *n > 0 && *n <= MAX_TIMES,
        Instr::Call { .. } => true,
        Instr::Switch { disc, arms, .. } => is_disc(*disc) && are_labels(arms),
    }
}

fn has_numbers(count: usize, instr: &Instr) -> bool
    ensures { IsTrue result ↔ HasNumbers count instr.now }
{
    is_instr(instr) && are_in_range(count, instr.named())
}

fn all_have_numbers(count: usize, code: &[Instr]) -> bool
    ensures { IsTrue result ↔ All (HasNumbers count) code.now }
{
    code.iter().all(|instr| has_numbers(count, instr))
}

fn are_sets(exits: [u8; 8]) -> bool
    ensures { IsTrue result ↔ AreSets exits }
{
    exits.iter().all(|set| {
        let _set = *set;
        true
    })
}

/// The numbers of a routine are in range, among so many routines.
pub fn has_all_numbers(count: usize, routine: &Routine) -> bool
    ensures { IsTrue result ↔ HasAllNumbers count routine.now }
{
    let _node = routine.node;
    routine.entry > 0
        && are_sets(routine.exits)
        && routine.rank <= MAX_RANK
        && all_have_numbers(count, routine.code.as_slice())
}

fn is_instr_work(instr: &Instr) -> bool
    ensures { result ≡ is_work instr.now }
{
    !matches!(instr, Instr::Align { .. })
}

fn has_work(code: &[Instr]) -> bool
    ensures { result ≡ list_any is_work code.now }
{
    code.iter().any(is_instr_work)
}

/// Marks the numbers of the routines that take an octet.
fn note_works(routines: &[Routine], works: &mut [bool])
    requires room { length routines.now ≤ length works.old }
    requires none { (number : ℕ) → IsMarked works.old number → ⊥ }
    ensures { AreWorks routines.now works.new }
{
    for number in 0..routines.len() {
        works[number] = has_work(routines[number].code.as_slice());
    }
}

fn is_marked(works: &[bool], number: u32) -> bool
    ensures { result ≡ slice_index_or works.now number false }
{
    works.get(number as usize).copied().unwrap_or(false)
}

fn labels_marked(works: &[bool], arms: &[(i128, u32)]) -> bool
    ensures { IsTrue result ↔ All (λ arm. IsMarked works.now arm.1) arms.now }
{
    arms.iter().all(|arm| is_marked(works, arm.1))
}

fn other_marked(works: &[bool], otherwise: Option<u32>) -> bool
    ensures { IsTrue result ↔ All (IsMarked works.now) (option_to_list otherwise) }
{
    match otherwise {
        None => true,
        Some(number) => is_marked(works, number),
    }
}

fn all_marked(works: &[bool], names: Named<'_>) -> bool
    ensures { IsTrue result ↔ All (IsMarked works.now) (arms_of names.entry.arms.now names.entry.other) }
{
    labels_marked(works, names.arms) && other_marked(works, names.other)
}

fn instr_names_marked(works: &[bool], instr: &Instr) -> bool
    ensures { IsTrue result ↔ All (IsMarked works.now) (named_by instr.now) }
{
    all_marked(works, instr.named())
}

fn names_marked(works: &[bool], routine: &Routine) -> bool
    ensures { IsTrue result ↔ NamesMarked works.now routine.now }
{
    let code = routine.code.as_slice();
    code.iter().all(|instr| instr_names_marked(works, instr))
}

fn all_name_marked(works: &[bool], routines: &[Routine]) -> bool
    ensures { IsTrue result ↔ All (NamesMarked works.now) routines.now }
{
    routines.iter().all(|routine| names_marked(works, routine))
}

/// Each routine that one of these names takes an octet. Each is looked at once, however often it
/// is named.
pub fn all_name_work(routines: &[Routine]) -> bool
    requires { length routines.now ≤ 8192 }
    ensures { IsTrue result ↔ All (NamesWork routines.now) routines.now }
{
    let mut works = [false; MAX_ROUTINES];
    note_works(routines, &mut works);
    all_name_marked(&works, routines)
}

fn is_lower(routines: &[Routine], rank: u32, number: u32) -> bool
    ensures { IsTrue result ↔ IsLower routines.now rank number }
{
    match routines.get(number as usize) {
        None => false,
        Some(routine) => routine.rank < rank,
    }
}

fn labels_lower(routines: &[Routine], rank: u32, arms: &[(i128, u32)]) -> bool
    ensures { IsTrue result ↔ All (λ arm. IsLower routines.now rank arm.1) arms.now }
{
    arms.iter().all(|arm| is_lower(routines, rank, arm.1))
}

fn other_lower(routines: &[Routine], rank: u32, otherwise: Option<u32>) -> bool
    ensures { IsTrue result ↔ All (IsLower routines.now rank) (option_to_list otherwise) }
{
    match otherwise {
        None => true,
        Some(number) => is_lower(routines, rank, number),
    }
}

fn all_lower(routines: &[Routine], rank: u32, names: Named<'_>) -> bool
    ensures { IsTrue result ↔ All (IsLower routines.now rank) (arms_of names.entry.arms.now names.entry.other) }
{
    labels_lower(routines, rank, names.arms) && other_lower(routines, rank, names.other)
}

fn instr_calls_lower(routines: &[Routine], rank: u32, instr: &Instr) -> bool
    ensures { IsTrue result ↔ All (IsLower routines.now rank) (called_by instr.now) }
{
    all_lower(routines, rank, instr.called())
}

/// Each routine that this one calls outside a sequence has a lower rank.
pub fn calls_lower(routines: &[Routine], routine: &Routine) -> bool
    ensures { IsTrue result ↔ CallsLower routines.now routine.now }
{
    let code = routine.code.as_slice();
    let rank = routine.rank;
    code.iter()
        .all(|instr| instr_calls_lower(routines, rank, instr))
}

/// There aren't more instructions than a program may have.
pub fn has_few_instrs(routines: &[Routine]) -> bool
    ensures { IsTrue result ↔ (all_instrs routines.now ≤ 65536) }
{
    let mut left = MAX_INSTRS;
    for routine in routines {
        let count = routine.code.as_slice().len();
        if count > left {
            return false;
        }
        left -= count;
    }
    true
}
