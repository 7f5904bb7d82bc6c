//! What was read of a whole list of octets, part by part.

ghost use Rattle.std.specs.Prelude.{◌≡◌, ◌≢◌, ◌⊎◌, [], Some, IfOk, IfErr};
ghost use Rattle.table_file.specs.inner.Reading.{beside};

use crate::cursor::Cursor;
use marshal_program::TableFault;

/// What was read, if nothing is left and no number was read that no table has.
pub(crate) fn finished<T: Drop>(
    read: Result<T, TableFault>,
    cursor: &Cursor<'_>,
) -> Result<T, TableFault>
    ensures kept { IfOk result (λ x. (read ≡ Ok x) × (cursor.now ≡ Some [])) }
    ensures refused { IfErr result (λ fault. (read ≡ Err fault) ⊎ ((x : T) × (read ≡ Ok x) × (cursor.now ≢ Some []))) }
{
    match read {
        Err(fault) => Err(fault),
        Ok(_) if cursor.len() > 0 => Err(TableFault::Trailing),
        Ok(_) if !cursor.is_sound() => Err(TableFault::BadNumber),
        Ok(x) => Ok(x),
    }
}

/// What was read, and what was read behind it.
pub(crate) fn both<A: Drop, B: Drop>(
    first: A,
    second: Result<B, TableFault>,
) -> Result<(A, B), TableFault>
    ensures { result ≡ beside first second }
{
    match second {
        Ok(second) => Ok((first, second)),
        Err(fault) => Err(fault),
    }
}
