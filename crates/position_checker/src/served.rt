//! Which routines serve the nodes of a program, sought for all nodes in one pass.

ghost use Rattle.std.specs.Prelude.{◌≡◌, ◌<◌, ℕ, Some, None, IfOk, length, cond, slice_get, slice_index_or};
ghost use Rattle.std.specs.Option.{option_or};
ghost use Rattle.marshal_program.specs.Served.{is_serving, served_by};

use marshal_program::{Program, Routine};
use std::alloc::{AllocError, Global};

/// The next routine serves its node, if none before it does.
fn add(served: &mut Vec<Option<u32>>, number: u32, routine: &Routine)
    ensures long { length served.new.items ≡ length served.old.items }
    ensures each { (node : ℕ) → node < length served.old.items → slice_index_or served.new.items node None
        ≡ option_or (slice_index_or served.old.items node None)
        (cond (is_serving node routine.now) (Some number) None) }
{
    let node = routine.node as usize;
    if routine.entry != u8::MAX || node >= served.len() || served[node].is_some() {
        return;
    }
    served[node] = Some(number);
}

/// For each node below the count the number of the routine that serves it.
pub(crate) fn serving_of(
    alloc: Global,
    program: &Program,
    count: usize,
) -> Result<Vec<Option<u32>>, AllocError>
    ensures { IfOk result (λ served. (node : ℕ) → node < count
        → slice_get served.items node ≡ Some (served_by program.now node)) }
{
    let routines = program.routines();
    let mut served = vec![in alloc; None; count]?;
    for number in 0..routines.len() {
        add(&mut served, number as u32, &routines[number]);
    }
    Ok(served)
}
