//! How many routines were accepted.

ghost use Rattle.std.specs.Prelude.{◌≡◌, IfOk};
ghost use Rattle.std.specs.String.{string_bytes};
ghost use Rattle.position_checker.specs.Summary.{accepted};

use crate::accepted::Accepted;
use std::alloc::{AllocError, Global};
use table_file::Which;

/// The line `accepted N`: how many routines both programs have.
pub fn accepted_line(alloc: Global, table: &Accepted) -> Result<String, AllocError>
    ensures { IfOk result (λ line. string_bytes line ≡ accepted table.now) }
{
    let first = table.table().program(Which::First).routines().len();
    let second = table.table().program(Which::Second).routines().len();
    format!(in alloc; "accepted {}\n", first + second)
}
