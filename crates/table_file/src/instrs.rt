//! Instructions of a routine.

ghost use Rattle.std.specs.Prelude.{◌≤◌, ◌<◌, ℕ, List, [], ◌∷◌, Option};
ghost use Rattle.std.specs.Fmt.{◌++?◌};
ghost use Rattle.table_file.specs.Octets.{spelled_list, spelled_maybe};
ghost use Rattle.table_file.specs.Spelling.{spelled_arm, spelled_disc, spelled_instr};
ghost use Rattle.table_file.specs.inner.Passing.{Passes};
ghost use Rattle.table_file.specs.inner.Reading.{Reads, Takes, Writes};

use crate::cursor::Cursor;
use crate::part::Part;
use crate::tail::Tail;
use marshal_program::{Disc, Instr, TableFault};
use type_graph::{Arms, Width};

impl Part for Disc {
    ghost use Rattle.table_file.specs.inner.DiscCode.{disc_code};
    ghost use Rattle.table_file.specs.inner.Ones.{one_disc};

    ghost spelled = { spelled_disc };

    fn read(cursor: &mut Cursor<'_>) -> Result<Self, TableFault> {
        match cursor.octet()? {
            0 => Ok(Disc::Char),
            1 => Ok(Disc::Boolean),
            2 => {
                let (width, signed) = <(Width, bool)>::read(cursor)?;
                Ok(Disc::Word { width, signed })
            }
            3 => Ok(Disc::Enum {
                n: u32::read(cursor)?,
            }),
            _ => Err(TableFault::NotATable),
        }
    }

    fn write(&self, out: &mut Vec<u8>) -> Result<(), TableFault> {
        match self {
            Disc::Char => 0u8.write(out),
            Disc::Boolean => 1u8.write(out),
            Disc::Word { width, signed } => (2u8, (*width, *signed)).write(out),
            Disc::Enum { n } => (3u8, *n).write(out),
        }
    }

    fn pass(tail: &mut Tail<'_>) -> bool {
        match tail.below(4) {
            Some(0) => true,
            Some(1) => true,
            Some(2) => <(Width, bool)>::pass(tail),
            Some(_) => u32::pass(tail),
            None => false,
        }
    }

    ghost is_code = { disc_code };

    ghost has_one = { one_disc };
}

/// Puts what a switch says behind what was written before.
fn write_switch(
    disc: &Disc,
    arms: &Arms,
    otherwise: &Option<u32>,
    out: &mut Vec<u8>,
) -> Result<(), TableFault>
    ensures { Writes (spelled_disc disc.now ++? spelled_list spelled_arm arms.now
        ++? spelled_maybe otherwise.now) result out.old.items out.new.items }
{
    disc.write(out)?;
    arms.write(out)?;
    otherwise.write(out)
}

/// Reads what stands behind the tag of an instruction that names routines.
fn read_naming(tag: u8, cursor: &mut Cursor<'_>) -> Result<Instr, TableFault>
    requires { 9 ≤ tag }
    ensures { (start : Option (List ℕ)) → Takes 1 (tag ∷ []) start cursor.old
        → Reads spelled_instr result start cursor.new }
{
    match tag {
        9 => {
            let (bound, (first, routine)) = <(u32, (Width, u32))>::read(cursor)?;
            Ok(Instr::SeqOf {
                bound,
                first,
                routine,
            })
        }
        10 => {
            let (n, routine) = <(u32, u32)>::read(cursor)?;
            Ok(Instr::Times { n, routine })
        }
        11 => Ok(Instr::Call {
            routine: u32::read(cursor)?,
        }),
        12 => {
            let (disc, (arms, otherwise)) = <(Disc, (Arms, Option<u32>))>::read(cursor)?;
            Ok(Instr::Switch {
                disc,
                arms,
                otherwise,
            })
        }
        _ => Err(TableFault::NotATable),
    }
}

/// Passes what stands behind the tag of an instruction that names routines.
fn pass_naming(tag: u8, tail: &mut Tail<'_>) -> bool
    requires naming { 9 ≤ tag }
    requires known { tag < 13 }
    ensures { Passes spelled_instr result (tag ∷ tail.old) tail.new }
{
    match tag {
        9 => <(u32, (Width, u32))>::pass(tail),
        10 => <(u32, u32)>::pass(tail),
        11 => u32::pass(tail),
        _ => <(Disc, (Arms, Option<u32>))>::pass(tail),
    }
}

impl Part for Instr {
    ghost use Rattle.table_file.specs.Spelling.{spelled_instr};
    ghost use Rattle.table_file.specs.inner.InstrCode.{instr_code};
    ghost use Rattle.table_file.specs.inner.Ones.{one_instr};

    ghost spelled = { spelled_instr };

    fn read(cursor: &mut Cursor<'_>) -> Result<Self, TableFault> {
        match cursor.octet()? {
            0 => Ok(Instr::Align {
                to: Width::read(cursor)?,
            }),
            1 => Ok(Instr::Octets {
                n: u32::read(cursor)?,
            }),
            2 => {
                let (width, n) = <(Width, u32)>::read(cursor)?;
                Ok(Instr::Words { width, n })
            }
            3 => Ok(Instr::Bools {
                n: u32::read(cursor)?,
            }),
            4 => Ok(Instr::EnumWord {
                limit: u32::read(cursor)?,
            }),
            5 => Ok(Instr::Text {
                bound: u32::read(cursor)?,
            }),
            6 => Ok(Instr::SeqOctets {
                bound: u32::read(cursor)?,
            }),
            7 => Ok(Instr::SeqBools {
                bound: u32::read(cursor)?,
            }),
            8 => {
                let (width, (first, bound)) = <(Width, (Width, u32))>::read(cursor)?;
                Ok(Instr::SeqWords {
                    width,
                    first,
                    bound,
                })
            }
            tag => read_naming(tag, cursor),
        }
    }

    fn write(&self, out: &mut Vec<u8>) -> Result<(), TableFault> {
        match self {
            Instr::Align { to } => (0u8, *to).write(out),
            Instr::Octets { n } => (1u8, *n).write(out),
            Instr::Words { width, n } => (2u8, (*width, *n)).write(out),
            Instr::Bools { n } => (3u8, *n).write(out),
            Instr::EnumWord { limit } => (4u8, *limit).write(out),
            Instr::Text { bound } => (5u8, *bound).write(out),
            Instr::SeqOctets { bound } => (6u8, *bound).write(out),
            Instr::SeqBools { bound } => (7u8, *bound).write(out),
            Instr::SeqWords {
                width,
                first,
                bound,
            } => (8u8, (*width, (*first, *bound))).write(out),
            Instr::SeqOf {
                bound,
                first,
                routine,
            } => (9u8, (*bound, (*first, *routine))).write(out),
            Instr::Times { n, routine } => (10u8, (*n, *routine)).write(out),
            Instr::Call { routine } => (11u8, *routine).write(out),
            Instr::Switch {
                disc,
                arms,
                otherwise,
            } => {
                12u8.write(out)?;
                write_switch(disc, arms, otherwise, out)
            }
        }
    }

    fn pass(tail: &mut Tail<'_>) -> bool {
        match tail.below(13) {
            Some(0) => Width::pass(tail),
            Some(1) => u32::pass(tail),
            Some(2) => <(Width, u32)>::pass(tail),
            Some(3) => u32::pass(tail),
            Some(4) => u32::pass(tail),
            Some(5) => u32::pass(tail),
            Some(6) => u32::pass(tail),
            Some(7) => u32::pass(tail),
            Some(8) => <(Width, (Width, u32))>::pass(tail),
            Some(tag) => pass_naming(tag, tail),
            None => false,
        }
    }

    ghost is_code = { instr_code };

    ghost has_one = { one_instr };
}
