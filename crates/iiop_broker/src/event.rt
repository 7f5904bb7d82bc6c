//! What happens to connections.

/// What happens to the connection of a number.
#[derive(Clone, Copy, Debug, PartialEq, Eq)]
pub enum Event<'b> {
    Begin(u32),
    /// Octets that come.
    Piece(u32, &'b [u8]),
    End(u32),
}
