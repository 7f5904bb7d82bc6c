//! Lists of parts.

ghost use Rattle.std.specs.Prelude.{◌≡◌, ℕ, List, IfOk, IfErr};
ghost use Rattle.table_file.specs.Octets.{spelled_each, spelled_list, spelled_run, spelled_word};
ghost use Rattle.table_file.specs.inner.Passing.{Passes, PassesCounted};
ghost use Rattle.table_file.specs.inner.Reading.{Reads, Writes};
ghost use Rattle.table_file.specs.inner.Skimming.{IsRunSize, IsSize, Skims};

use crate::cursor::Cursor;
use crate::part::Part;
use crate::tail::Tail;
use marshal_program::TableFault;
use type_graph::Items;

/// For so many parts there is room at once, however many there are said to be.
const FEW: usize = 16;

/// Reads so many parts.
pub(crate) fn read_run<T: Part>(
    cursor: &mut Cursor<'_>,
    count: usize,
) -> Result<Items<T>, TableFault>
    ensures { Reads (spelled_run count T.spelled) result cursor.old cursor.new }
{
    let mut items = Vec::with_capacity(cursor.alloc(), count.min(FEW))?;
    'items: for place in 0..count {
        let item = T::read(cursor)?;
        items.push(item)?;
    }
    Ok(Items::new(items))
}

/// How many parts a list has, and no more than they weigh.
#[derive(Clone, Copy)]
pub(crate) struct Size {
    pub count: usize,
    pub weight: usize,
}

/// Reads past so many parts and keeps nothing of them. Tells no more than they weigh.
pub(crate) fn skim_run<T: Part>(cursor: &mut Cursor<'_>, count: usize) -> Result<usize, TableFault>
    ensures { Skims (spelled_run count T.spelled) (IsRunSize count T.weight) result cursor.old cursor.new }
{
    let mut sum = 0usize;
    'items: for place in 0..count {
        let weight = T::skim(cursor)?;
        sum = sum.saturating_add(weight);
    }
    Ok(sum)
}

/// Reads how many parts a list has.
fn read_count<T: Part>(cursor: &mut Cursor<'_>) -> Result<usize, TableFault>
    ensures counted { IfOk result (λ count. Reads spelled_word (Ok count) cursor.old cursor.new) }
    ensures refused { IfErr result (λ fault. Reads (spelled_list T.spelled) (Err fault) cursor.old cursor.new) }
{
    let count = u32::read(cursor)? as usize;
    // Each takes an octet at least.
    if count > cursor.len() {
        return Err(TableFault::NotATable);
    }
    Ok(count)
}

/// Reads past a list and keeps nothing of it.
pub(crate) fn skim_list<T: Part>(cursor: &mut Cursor<'_>) -> Result<Size, TableFault>
    ensures { Skims (spelled_list T.spelled) (IsSize T.weight) result cursor.old cursor.new }
{
    let count = read_count::<T>(cursor)?;
    match skim_run::<T>(cursor, count) {
        Ok(weight) => Ok(Size { count, weight }),
        Err(fault) => Err(fault),
    }
}

/// Passes so many parts.
pub(crate) fn pass_run<T: Part>(tail: &mut Tail<'_>, count: usize) -> bool
    ensures { Passes (spelled_run count T.spelled) result tail.old tail.new }
{
    'items: for place in 0..count {
        if !T::pass(tail) {
            return false;
        }
    }
    true
}

/// Passes a list, and tells how long it is.
pub(crate) fn pass_counted<T: Part>(tail: &mut Tail<'_>) -> Option<usize>
    ensures { PassesCounted T.spelled result tail.old tail.new }
{
    let Some(count) = tail.word() else {
        return None;
    };
    let count = count as usize;
    if pass_run::<T>(tail, count) {
        Some(count)
    } else {
        None
    }
}

/// Puts parts behind what was written before.
pub(crate) fn write_each<T: Part>(items: &[T], out: &mut Vec<u8>) -> Result<(), TableFault>
    ensures { Writes (spelled_each T.spelled items.now) result out.old.items out.new.items }
{
    'items: for item in items {
        item.write(out)?;
    }
    Ok(())
}

/// Puts how many there are, and the parts, behind what was written before.
pub(crate) fn write_list<T: Part>(items: &[T], out: &mut Vec<u8>) -> Result<(), TableFault>
    ensures { Writes (spelled_list T.spelled items.now) result out.old.items out.new.items }
{
    write_count(items.len(), out)?;
    write_each(items, out)
}

/// Puts a count behind what was written before.
pub(crate) fn write_count(count: usize, out: &mut Vec<u8>) -> Result<(), TableFault>
    ensures { Writes (spelled_word count) result out.old.items out.new.items }
{
    match u32::try_from(count) {
        Ok(count) => count.write(out),
        Err(_) => Err(TableFault::BadNumber),
    }
}

impl<T: Part> Part for Items<T> {
    ghost use Rattle.std.specs.Prelude.{length};
    ghost use Rattle.table_file.specs.Octets.{spelled_list};
    ghost use Rattle.table_file.specs.inner.ListCodes.{list_code};
    ghost use Rattle.table_file.specs.inner.Ones.{one_list};

    ghost spelled = { spelled_list T.spelled };

    ghost weight = { λ items. length items };

    fn read(cursor: &mut Cursor<'_>) -> Result<Self, TableFault> {
        let count = read_count::<T>(cursor)?;
        read_run(cursor, count)
    }

    fn skim(cursor: &mut Cursor<'_>) -> Result<usize, TableFault> {
        match skim_list::<T>(cursor) {
            Ok(size) => Ok(size.count),
            Err(fault) => Err(fault),
        }
    }

    fn write(&self, out: &mut Vec<u8>) -> Result<(), TableFault> {
        write_list(self.as_slice(), out)
    }

    fn pass(tail: &mut Tail<'_>) -> bool {
        pass_counted::<T>(tail).is_some()
    }

    ghost is_code = { list_code T.spelled T.is_code };

    ghost has_one = { one_list T.spelled };
}
