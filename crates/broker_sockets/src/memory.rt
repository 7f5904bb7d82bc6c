//! Memory that is kept.

use std::alloc::{AllocError, Global};

/// So many octets has the block: more than a call of 1 MiB takes, and no more than the C library looks
/// at.
const BLOCK: usize = 16_777_216;

/// A block that nobody uses. It stands apart, so that it isn't optimised away.
#[inline(never)]
fn block(alloc: Global) -> Result<Vec<u8>, AllocError> {
    Vec::with_capacity(alloc, BLOCK)
}

/// Has the C library keep what is let go of: it gives large blocks back to the system until it has
/// seen one as large let go of. Without that each page of each large message is had anew, which takes
/// three times as long as all else. None of the block is touched; without memory for it all goes on.
pub(crate) fn keep_memory(alloc: Global) {
    let _ = block(alloc);
}
