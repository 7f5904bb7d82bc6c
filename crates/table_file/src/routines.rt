//! Routines of a program.

ghost use Rattle.std.specs.Prelude.{◌≡◌, length, Some};
ghost use Rattle.std.specs.Fmt.{◌++?◌};
ghost use Rattle.table_file.specs.Octets.{spelled_list, spelled_octet, spelled_run, spelled_word};
ghost use Rattle.table_file.specs.Spelling.{spelled_instr};
ghost use Rattle.table_file.specs.inner.Reading.{Writes};

use crate::cursor::Cursor;
use crate::part::Part;
use crate::tail::Tail;
use marshal_program::{Code, Routine, TableFault};

/// The sets of these octets.
fn sets_of(octets: &[u8]) -> [u8; 8]
    requires { length octets.now ≡ 8 }
    ensures { spelled_run 8 spelled_octet result ≡ Some octets.now }
{
    [
        octets[0], octets[1], octets[2], octets[3], octets[4], octets[5], octets[6], octets[7],
    ]
}

/// Puts eight sets behind what was written before.
fn write_sets(sets: &[u8], out: &mut Vec<u8>) -> Result<(), TableFault>
    requires { length sets.now ≡ 8 }
    ensures { Writes (spelled_run 8 spelled_octet sets.now) result out.old.items out.new.items }
{
    out.extend_from_slice(sets)?;
    Ok(())
}

impl Part for [u8; 8] {
    ghost use Rattle.table_file.specs.Octets.{spelled_octet, spelled_run};
    ghost use Rattle.table_file.specs.inner.PartCodes.{exits_code};
    ghost use Rattle.table_file.specs.inner.Ones.{one_exits};

    ghost spelled = { spelled_run 8 spelled_octet };

    fn read(cursor: &mut Cursor<'_>) -> Result<Self, TableFault> {
        let sets = cursor.take(8)?;
        Ok(sets_of(sets))
    }

    fn write(&self, out: &mut Vec<u8>) -> Result<(), TableFault> {
        write_sets(self.as_slice(), out)
    }

    fn pass(tail: &mut Tail<'_>) -> bool {
        tail.skip(8)
    }

    ghost is_code = { exits_code };

    ghost has_one = { one_exits };
}

/// Puts the exits, the rank and the code behind what was written before.
fn write_body(exits: &[u8; 8], rank: u32, code: &Code, out: &mut Vec<u8>) -> Result<(), TableFault>
    ensures { Writes (spelled_run 8 spelled_octet exits.now ++? spelled_word rank
        ++? spelled_list spelled_instr code.now) result out.old.items out.new.items }
{
    exits.write(out)?;
    rank.write(out)?;
    code.write(out)
}

impl Part for Routine {
    ghost use Rattle.table_file.specs.Spelling.{spelled_routine};
    ghost use Rattle.table_file.specs.inner.PartCodes.{routine_code};
    ghost use Rattle.table_file.specs.inner.Ones.{one_routine};
    ghost use Rattle.table_file.specs.inner.Skimming.{instrs_in};

    ghost spelled = { spelled_routine };

    ghost weight = { instrs_in };

    fn read(cursor: &mut Cursor<'_>) -> Result<Self, TableFault> {
        let (node, (entry, (exits, (rank, code)))) = <(u32, (u8, ([u8; 8], (u32, Code))))>::read(
            cursor,
        )?;
        Ok(Routine {
            node,
            entry,
            exits,
            rank,
            code,
        })
    }

    fn skim(cursor: &mut Cursor<'_>) -> Result<usize, TableFault> {
        <(u32, (u8, ([u8; 8], (u32, Code))))>::skim(cursor)
    }

    fn write(&self, out: &mut Vec<u8>) -> Result<(), TableFault> {
        self.node.write(out)?;
        self.entry.write(out)?;
        write_body(&self.exits, self.rank, &self.code, out)
    }

    fn pass(tail: &mut Tail<'_>) -> bool {
        <(u32, (u8, ([u8; 8], (u32, Code))))>::pass(tail)
    }

    ghost is_code = { routine_code };

    ghost has_one = { one_routine };
}
