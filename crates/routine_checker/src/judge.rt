//! What is tested at an instruction beside its work: where routines are entered, the gaps, and the
//! positions behind it.

ghost use Rattle.std.specs.Prelude.{◌≡◌, ◌<◌, ◌≤◌, [], bit_or, option_to_list};
ghost use Rattle.std.specs.List.{list_all};
ghost use Rattle.type_graph.specs.GraphRules.{IsGraph};
ghost use Rattle.type_graph.specs.Walks.{lead_of};
ghost use Rattle.type_graph.specs.Value.{number_width};
ghost use Rattle.marshal_program.specs.Does.{node_of};
ghost use Rattle.marshal_program.specs.ProgramRules.{arms_of};
ghost use Rattle.routine_checker.specs.Sets.{is_within, gaps_serve};
ghost use Rattle.routine_checker.specs.Steps.{entry_at, exits_at, lead_at, counted, behind_gap, starts, chosen_from, enters_elements, enters, pads, values_of, memberless, left_by, ends};

use crate::sets::{EVERYWHERE, closure, gaps_agree, gaps_serve, is_within, left, moved, multiples};
use crate::times::{enters_times, times_left};
use marshal_program::{Disc, Instr, Routine};
use type_graph::{Graph, Width};

fn entry_at(program: &[Routine], routine: u32) -> u8
    ensures { result ≡ entry_at program.now routine }
{
    match program.get(routine as usize) {
        Some(routine) => routine.entry,
        None => 0,
    }
}

fn exits_at(program: &[Routine], routine: u32) -> &[u8]
    ensures { result.now ≡ exits_at program.now routine }
{
    match program.get(routine as usize) {
        Some(routine) => &routine.exits,
        None => &[],
    }
}

#[tactic(auto, using(crate::proofs::JudgeLaws::lead_past))]
fn lead_of(graph: &Graph, node: u32) -> Width
    ensures { result ≡ lead_of graph.now node }
{
    if (node as usize) < graph.nodes().len() {
        graph.lead(node)
    } else {
        Width::One
    }
}

/// The first alignment of the routine's node.
fn lead_at(graph: &Graph, program: &[Routine], routine: u32) -> Width
    ensures { result ≡ lead_at graph.now program.now routine }
{
    match program.get(routine as usize) {
        Some(routine) => lead_of(graph, routine.node),
        None => lead_of(graph, 0),
    }
}

/// Behind the count of a sequence, or an enumerator.
fn counted(places: u8) -> u8
    ensures { result ≡ counted places }
{
    moved(places, Width::Four, 4)
}

fn behind_gap(places: u8, gap: Width) -> u8
    ensures { result ≡ behind_gap places gap }
{
    moved(places, gap, 0)
}

/// The size of a discriminator.
fn disc_width(disc: Disc) -> Width
    ensures { result ≡ number_width (node_of disc) }
{
    match disc {
        Disc::Char | Disc::Boolean => Width::One,
        Disc::Word { width, .. } => width,
        Disc::Enum { .. } => Width::Four,
    }
}

/// Behind a discriminator.
fn chosen_from(disc: Disc, places: u8) -> u8
    ensures { result ≡ chosen_from disc places }
{
    let width = disc_width(disc);
    moved(places, width, width.octets() as u64)
}

/// Where the elements of a sequence start whose first starts at one of the places.
fn starts(program: &[Routine], routine: u32, places: u8) -> u8
    ensures { result ≡ starts program.now routine places }
{
    closure(exits_at(program, routine), places)
}

fn enters_elements(entry: u8, exits: &[u8], from: u8) -> bool
    ensures { result ≡ enters_elements entry exits.now from }
{
    is_within(from, entry) && is_within(left(from, exits), from)
}

fn enters_arms(program: &[Routine], from: u8, arms: &[(i128, u32)]) -> bool
    ensures { result ≡ list_all (λ arm. is_within from (entry_at program.now arm.1)) arms.now }
{
    arms.iter()
        .all(|arm| is_within(from, entry_at(program, arm.1)))
}

fn enters_otherwise(program: &[Routine], from: u8, otherwise: Option<u32>) -> bool
    ensures { result ≡ list_all (λ routine. is_within from (entry_at program.now routine)) (option_to_list otherwise) }
{
    match otherwise {
        Some(routine) => is_within(from, entry_at(program, routine)),
        None => true,
    }
}

/// Each routine of a switch may start at each of the places.
fn enters_all(program: &[Routine], from: u8, arms: &[(i128, u32)], otherwise: Option<u32>) -> bool
    ensures { result ≡ list_all (λ routine. is_within from (entry_at program.now routine))
        (arms_of arms.now otherwise) }
{
    let arms_enter = enters_arms(program, from, arms);
    let other_enters = enters_otherwise(program, from, otherwise);
    arms_enter && other_enters
}

/// Whether the routines that the instruction names are entered where they may be.
pub fn enters(program: &[Routine], instr: &Instr, places: u8, gap: Width) -> bool
    ensures { result ≡ enters program.now instr.now places gap }
{
    match instr {
        Instr::SeqOf { first, routine, .. } => {
            let from = starts(program, *routine, behind_gap(counted(places), *first));
            enters_elements(
                entry_at(program, *routine),
                exits_at(program, *routine),
                from,
            )
        }
        Instr::Times { n, routine } => enters_times(
            *n,
            entry_at(program, *routine),
            exits_at(program, *routine),
            behind_gap(places, gap),
        ),
        Instr::Call { routine } => {
            is_within(behind_gap(places, gap), entry_at(program, *routine))
        }
        Instr::Switch {
            disc,
            arms,
            otherwise,
        } => enters_all(
            program,
            chosen_from(*disc, places),
            arms.as_slice(),
            *otherwise,
        ),
        _ => true,
    }
}

/// Whether the gap may stand in front of the routine. No gap may, whatever its node begins with.
#[tactic(auto, using(crate::proofs::JudgeLaws::none_serves))]
fn serves(graph: &Graph, program: &[Routine], routine: u32, places: u8, gap: Width) -> bool
    ensures { result ≡ gaps_serve places gap (lead_at graph.now program.now routine) }
{
    match gap {
        Width::One => true,
        _ => gaps_serve(places, gap, lead_at(graph, program, routine)),
    }
}

/// Whether the gaps are those that belong there.
pub fn pads(graph: &Graph, program: &[Routine], instr: &Instr, places: u8, gap: Width) -> bool
    ensures { result ≡ pads graph.now program.now instr.now places gap }
{
    match instr {
        Instr::Align { .. } => true,
        Instr::Octets { .. } | Instr::Bools { .. } => gaps_agree(places, gap, Width::One),
        Instr::Words { width, .. } => gaps_agree(places, gap, *width),
        Instr::EnumWord { .. }
        | Instr::Text { .. }
        | Instr::SeqOctets { .. }
        | Instr::SeqBools { .. } => gaps_agree(places, gap, Width::Four),
        Instr::SeqWords { width, first, .. } => {
            gaps_agree(places, gap, Width::Four) && gaps_agree(counted(places), *first, *width)
        }
        Instr::SeqOf { first, routine, .. } => gaps_agree(places, gap, Width::Four)
            && gaps_serve(counted(places), *first, lead_at(graph, program, *routine)),
        Instr::Times { routine, .. } | Instr::Call { routine } => {
            serves(graph, program, *routine, places, gap)
        }
        Instr::Switch { disc, .. } => gaps_agree(places, gap, disc_width(*disc)),
    }
}

/// How many values a discriminator has.
fn values_of(disc: Disc) -> u128
    ensures { result ≡ values_of disc }
{
    match disc {
        Disc::Char => 256,
        Disc::Boolean => 2,
        Disc::Word { width, .. } => width.patterns(),
        Disc::Enum { n } => u128::from(n),
    }
}

/// The places where no member follows a discriminator.
fn memberless(disc: Disc, arms: &[(i128, u32)], otherwise: Option<u32>, places: u8) -> u8
    ensures { result ≡ memberless disc arms.now otherwise places }
{
    if otherwise.is_some() || (arms.len() as u128) >= values_of(disc) {
        0
    } else {
        places
    }
}

#[tactic(auto, using(crate::proofs::JudgeLaws::or_nothing))]
fn left_otherwise(program: &[Routine], places: u8, otherwise: Option<u32>) -> u8
    ensures { result ≡ left_by program.now places (arms_of [] otherwise) }
{
    match otherwise {
        Some(routine) => left(places, exits_at(program, routine)),
        None => 0,
    }
}

/// Where one of the routines of a switch ends.
fn left_by(program: &[Routine], places: u8, arms: &[(i128, u32)], otherwise: Option<u32>) -> u8
    ensures { result ≡ left_by program.now places (arms_of arms.now otherwise) }
{
    let mut ends = left_otherwise(program, places, otherwise);
    for arm in arms {
        ends |= left(places, exits_at(program, arm.1));
    }
    ends
}

/// The positions behind the instruction.
pub fn ends(program: &[Routine], instr: &Instr, places: u8, gap: Width) -> u8
    ensures { result ≡ ends program.now instr.now places gap }
{
    match instr {
        Instr::Align { .. } => places,
        Instr::Octets { n } | Instr::Bools { n } => moved(places, Width::One, u64::from(*n)),
        Instr::Words { width, n } => moved(places, *width, u64::from(*n) * width.octets() as u64),
        Instr::EnumWord { .. } => counted(places),
        Instr::Text { .. } | Instr::SeqOctets { .. } | Instr::SeqBools { .. } => EVERYWHERE,
        Instr::SeqWords { width, .. } => counted(places) | multiples(*width),
        Instr::SeqOf { first, routine, .. } => {
            let counted = counted(places);
            let from = starts(program, *routine, behind_gap(counted, *first));
            counted | left(from, exits_at(program, *routine))
        }
        Instr::Times { n, routine } => {
            times_left(*n, exits_at(program, *routine), behind_gap(places, gap))
        }
        Instr::Call { routine } => left(behind_gap(places, gap), exits_at(program, *routine)),
        Instr::Switch {
            disc,
            arms,
            otherwise,
        } => {
            let from = chosen_from(*disc, places);
            left_by(program, from, arms.as_slice(), *otherwise)
                | memberless(*disc, arms.as_slice(), *otherwise, from)
        }
    }
}
