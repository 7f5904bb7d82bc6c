//! The gap before a body.

ghost use Rattle.std.specs.Prelude.{◌≡◌, ◌<◌};
ghost use Rattle.type_graph.specs.Words.{pad};

/// How many octets lie before the next multiple of 8.
pub(crate) fn gap_at(stop: usize) -> usize
    ensures gap { result ≡ pad stop 8 }
    ensures short { result < 8 }
{
    (8 - stop % 8) % 8
}
