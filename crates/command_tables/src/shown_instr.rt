//! Instructions as text: the word, then the fields in decimal, with single blanks between them.

use marshal_program::{Disc, Instr};
use std::fmt;
use type_graph::Arms;

/// An instruction as the listing shows it.
#[derive(Clone, Copy)]
pub struct ShownInstr<'i>(pub &'i Instr);

/// A discriminator: `char`, `boolean`, `word` with its octets and whether it is signed, `enum` with
/// its enumerators.
#[derive(Clone, Copy)]
struct ShownDisc<'i>(&'i Disc);

/// Labels with their routines: how many, then each.
#[derive(Clone, Copy)]
struct ShownArms<'i>(&'i Arms);

/// A routine that may be missing: its number, or `-`.
#[derive(Clone, Copy)]
struct ShownOther(Option<u32>);

impl fmt::Display for ShownDisc<'_> {
    fn fmt<W: fmt::Write>(&self, f: &mut fmt::Formatter<W>) -> fmt::Result {
        match self.0 {
            Disc::Char => f.write_str("char"),
            Disc::Boolean => f.write_str("boolean"),
            Disc::Word { width, signed } => {
                write!(f, "word {} {}", width.octets(), u8::from(*signed))
            }
            Disc::Enum { n } => write!(f, "enum {n}"),
        }
    }
}

impl fmt::Display for ShownArms<'_> {
    fn fmt<W: fmt::Write>(&self, f: &mut fmt::Formatter<W>) -> fmt::Result {
        let arms = self.0.as_slice();
        write!(f, "{}", arms.len())?;
        for arm in arms {
            write!(f, " {} {}", arm.0, arm.1)?;
        }
        Ok(())
    }
}

impl fmt::Display for ShownOther {
    fn fmt<W: fmt::Write>(&self, f: &mut fmt::Formatter<W>) -> fmt::Result {
        match self.0 {
            Some(routine) => write!(f, "{routine}"),
            None => f.write_str("-"),
        }
    }
}

impl fmt::Display for ShownInstr<'_> {
    fn fmt<W: fmt::Write>(&self, f: &mut fmt::Formatter<W>) -> fmt::Result {
        match self.0 {
            Instr::Align { to } => write!(f, "Align {}", to.octets()),
            Instr::Octets { n } => write!(f, "Octets {n}"),
            Instr::Words { width, n } => write!(f, "Words {} {n}", width.octets()),
            Instr::Bools { n } => write!(f, "Bools {n}"),
            Instr::EnumWord { limit } => write!(f, "EnumWord {limit}"),
            Instr::Text { bound } => write!(f, "Text {bound}"),
            Instr::SeqOctets { bound } => write!(f, "SeqOctets {bound}"),
            Instr::SeqBools { bound } => write!(f, "SeqBools {bound}"),
            Instr::SeqWords {
                width,
                first,
                bound,
            } => write!(f, "SeqWords {} {} {bound}", width.octets(), first.octets()),
            Instr::SeqOf {
                bound,
                first,
                routine,
            } => write!(f, "SeqOf {bound} {} {routine}", first.octets()),
            Instr::Times { n, routine } => write!(f, "Times {n} {routine}"),
            Instr::Call { routine } => write!(f, "Call {routine}"),
            Instr::Switch {
                disc,
                arms,
                otherwise,
            } => write!(
                f,
                "Switch {} {} {}",
                ShownDisc(disc),
                ShownArms(arms),
                ShownOther(*otherwise)
            ),
        }
    }
}
