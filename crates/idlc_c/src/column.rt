//! The column at which an IDL text is refused.

use diagnostic_views::known_of;
use diagnostic_views::source_places::line_start;
use idl_compiler::CompileFault;
use std::alloc::Global;

/// The column of the first fault, which is in this line: it counts from 1, in octets. 0 where it isn't known,
/// also for want of memory.
pub(crate) fn column_of(alloc: Global, source: &[u8], fault: &CompileFault, line: usize) -> usize {
    let Ok(all) = known_of(alloc, source, fault) else {
        return 0;
    };
    match (all.known.first(), line_start(source, line)) {
        (Some(known), Some(start)) if start <= known.octet => {
            (known.octet - start).saturating_add(1)
        }
        _ => 0,
    }
}
