//! Lists of numbers, each once: places of operations and entries of bases.

ghost use Rattle.std.specs.Prelude.{◌≡◌, ◌++◌, ◌-◌, Ok};
ghost use Rattle.std.specs.List.{fold, range_with_len};
ghost use Rattle.lowered_types.specs.Faults.{Tells};
ghost use Rattle.lowered_operations.specs.Interfaces.{with_once};

use indexmap::IndexSet;
use lowered_types::BuildFault;
use std::alloc::Global;

/// More numbers, each unless it is there.
///
/// # Errors
/// Want of memory.
pub(crate) fn insert_each(all: &mut IndexSet<usize>, more: &[usize]) -> Result<(), BuildFault>
    ensures { Tells result (λ u. all.new.keys) (Ok (fold with_once all.old.keys more.now)) }
{
    for number in more {
        all.insert(*number)?;
    }
    Ok(())
}

/// The numbers of a set, in order.
///
/// # Errors
/// Want of memory.
pub(crate) fn list_of(alloc: Global, set: &IndexSet<usize>) -> Result<Vec<usize>, BuildFault>
    ensures { Tells result (λ list. list.items) (Ok set.now.keys) }
{
    let mut list = Vec::new(alloc);
    list.extend_from_slice(set.as_slice())?;
    Ok(list)
}

/// The numbers from the first to before the end.
///
/// # Errors
/// Want of memory.
pub(crate) fn push_from(
    numbers: &mut Vec<usize>,
    first: usize,
    end: usize,
) -> Result<(), BuildFault>
    ensures { Tells result (λ u. numbers.new.items) (Ok (numbers.old.items ++ range_with_len first (end - first))) }
{
    for k in first..end {
        numbers.push(k)?;
    }
    Ok(())
}
