//! Laws of what octets mean, in the words of an accepted table's calls.

pub use type_graph::laws::{front_has_one_tape, meaning_has_period_eight};
