//! Where a place of a preprocessed file stands in the files as they were written: the line markers
//! that a preprocessor leaves, `# 7 "file"` and `#line 7 "file"`, are followed.

mod marker;
mod places;

pub use marker::{Marker, read_marker};
pub use places::{SourceLine, line_start, place_at};
