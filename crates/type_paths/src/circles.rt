//! At which token a member closes a circle.

ghost use Rattle.std.specs.Prelude.{◌↔◌, IfOk, IsTrue};
ghost use Rattle.type_paths.specs.Paths.{GoesRoundBy, ClosesCircle};

use crate::levels::{first_in, paths_by};
use crate::sited::Sited;
use std::alloc::{AllocError, Global};

/// Whether a type holds itself with the members up to the token.
pub fn goes_round(alloc: Global, types: &Sited<'_>, token: usize) -> Result<bool, AllocError>
    ensures { IfOk result (λ round. IsTrue round ↔ GoesRoundBy types.now token) }
{
    let table = paths_by(alloc, types, token, types.nodes.len() + 1)?;
    Ok(first_in(&table).is_some())
}

/// The first token by which a type holds itself, where one does with the members up to `most`.
pub fn closing_token(alloc: Global, types: &Sited<'_>, most: usize) -> Result<usize, AllocError>
    requires { GoesRoundBy types.now most }
    ensures { IfOk result (ClosesCircle types.now) }
{
    let mut low = 0;
    let mut high = most;
    while low < high {
        let middle = low + (high - low) / 2;
        if goes_round(alloc, types, middle)? {
            high = middle;
        } else {
            low = middle + 1;
        }
    }
    Ok(high)
}
