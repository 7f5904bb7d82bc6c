//! Where in a text something stands.

use crate::fault::{Refusal, TextPlace, Wanted};

/// The line and column of the octet at this place.
fn place_of(text: &[u8], at: usize) -> TextPlace {
    let mut place = TextPlace { line: 1, column: 1 };
    for octet in text.iter().take(at) {
        if *octet == b'\n' {
            place.line = place.line.saturating_add(1);
            place.column = 1;
        } else {
            place.column = place.column.saturating_add(1);
        }
    }
    place
}

/// The refusal of what stands there.
pub fn refused_at(text: &str, wanted: Wanted, at: usize) -> Refusal {
    Refusal {
        wanted,
        place: place_of(text.as_bytes(), at),
    }
}
