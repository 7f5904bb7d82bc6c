//! A part of a table file.

ghost use Rattle.std.specs.Prelude.{List, ℕ, Option};
ghost use Rattle.table_file.specs.Octets.{spelled_pair};
ghost use Rattle.table_file.specs.inner.Reading.{Reads, Writes};
ghost use Rattle.table_file.specs.inner.Skimming.{IsAtMost, Skims, no_weight, weight_both};
ghost use Rattle.table_file.specs.inner.Codes.{IsCode};
ghost use Rattle.table_file.specs.inner.Passing.{HasOne, Passes};

use crate::cursor::Cursor;
use crate::tail::Tail;
use marshal_program::TableFault;

/// How a part is read and written.
pub(crate) trait Part: Sized + Drop {
    ghost spelled: { Self → Option (List ℕ) };

    /// How many members a node has, how many instructions a routine, how many parts a list.
    ghost weight: { Self → ℕ } = { no_weight };

    fn read(cursor: &mut Cursor<'_>) -> Result<Self, TableFault>
        ensures { Reads spelled result cursor.old cursor.new };

    /// Reads past the part and keeps nothing of it. Tells no more than it weighs.
    fn skim(cursor: &mut Cursor<'_>) -> Result<usize, TableFault>
        ensures { Skims spelled (IsAtMost weight) result cursor.old cursor.new }
    {
        match Self::read(cursor) {
            Ok(_) => Ok(0),
            Err(fault) => Err(fault),
        }
    }

    /// Puts the part behind what was written before.
    fn write(&self, out: &mut Vec<u8>) -> Result<(), TableFault>
        ensures { Writes (spelled self.now) result out.old.items out.new.items };

    /// Passes the part. Where it isn't there, what is left begins with the first octet with which no
    /// part goes on, or is nothing.
    fn pass(tail: &mut Tail<'_>) -> bool
        ensures { Passes spelled result tail.old tail.new };

    ghost is_code: { IsCode spelled };

    ghost has_one: { HasOne spelled };
}

impl<A: Part, B: Part> Part for (A, B) {
    ghost use Rattle.table_file.specs.inner.Codes.{pair_code};
    ghost use Rattle.table_file.specs.inner.Ones.{one_pair};

    ghost spelled = { spelled_pair A.spelled B.spelled };

    ghost weight = { weight_both A.weight B.weight };

    fn read(cursor: &mut Cursor<'_>) -> Result<Self, TableFault> {
        let first = A::read(cursor)?;
        let second = B::read(cursor)?;
        Ok((first, second))
    }

    fn skim(cursor: &mut Cursor<'_>) -> Result<usize, TableFault> {
        let first = A::skim(cursor)?;
        let second = B::skim(cursor)?;
        Ok(first.saturating_add(second))
    }

    fn write(&self, out: &mut Vec<u8>) -> Result<(), TableFault> {
        self.0.write(out)?;
        self.1.write(out)
    }

    fn pass(tail: &mut Tail<'_>) -> bool {
        A::pass(tail) && B::pass(tail)
    }

    ghost is_code = { pair_code A.spelled B.spelled A.is_code B.is_code };

    ghost has_one = { one_pair A.spelled B.spelled A.has_one B.has_one };
}
