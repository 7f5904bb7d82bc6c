//! Which program serves each name.

ghost use Rattle.std.specs.Prelude.{◌≡◌, ◌↔◌, ◌<◌, IsTrue, length, All};
ghost use Rattle.type_model.specs.Names.{AreNames};
ghost use Rattle.table_file.specs.Table.{AreAlike, AreUses};
ghost use Rattle.table_file.specs.inner.Seen.{AllNone};

use crate::cursor::Cursor;
use crate::part::Part;
use crate::table::Which;
use crate::tail::Tail;
use marshal_program::TableFault;
use type_model::NameTable;

impl Part for Which {
    ghost use Rattle.table_file.specs.TableSpelling.{spelled_which};
    ghost use Rattle.table_file.specs.inner.TableCodes.{which_code};
    ghost use Rattle.table_file.specs.inner.Ones.{one_which};

    ghost spelled = { spelled_which };

    fn read(cursor: &mut Cursor<'_>) -> Result<Self, TableFault> {
        match cursor.octet()? {
            0 => Ok(Which::First),
            1 => Ok(Which::Second),
            _ => Err(TableFault::NotATable),
        }
    }

    fn write(&self, out: &mut Vec<u8>) -> Result<(), TableFault> {
        self.number().write(out)
    }

    fn pass(tail: &mut Tail<'_>) -> bool {
        tail.one_of(&[0, 1]).is_some()
    }

    ghost is_code = { which_code };

    ghost has_one = { one_which };
}

/// How many nodes a graph may have.
pub(crate) const MAX_NODES: usize = 4096;

/// Whether names of one node have one use; the uses seen are kept by node.
fn are_alike(names: &NameTable, uses: &[Which], seen: &mut [Option<Which>]) -> bool
    requires seen { AllNone seen.old }
    requires within { All (λ name. name.1 < length seen.old) names.now }
    requires each { length uses.now ≡ length names.now }
    ensures { IsTrue result ↔ AreAlike names.now uses.now }
{
    'names: for place in 0..uses.len() {
        let (_, node) = names.pair(place);
        let served = uses[place];
        match seen[node as usize] {
            Some(before) => {
                if before != served {
                    return false;
                }
            }
            None => seen[node as usize] = Some(served),
        }
    }
    true
}

/// Whether there is a use for each name, the same for names of one node.
pub(crate) fn are_uses(names: &NameTable, uses: &[Which]) -> bool
    requires { All (λ name. name.1 < 4096) names.now }
    ensures { IsTrue result ↔ AreUses names.now uses.now }
{
    if uses.len() != names.len() {
        return false;
    }
    let mut seen = [None; MAX_NODES];
    are_alike(names, uses, &mut seen)
}
