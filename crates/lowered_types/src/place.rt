//! What the entries among the names have.

/// What an entry has in a graph of types. A number is that of a node.
#[derive(Clone, Copy, Debug, PartialEq, Eq)]
pub enum Place {
    /// The name of a type has the type's node.
    Typed(u32),
    /// An exception has its frame, and its place among the exceptions.
    Raised { frame: u32, place: usize },
    /// An operation has the frame of its request; that of its reply comes next.
    Called { request: u32 },
    /// An attribute that is only got has the frames of getting it, from this one on.
    Got { request: u32 },
    /// An attribute that is set too has the frames of getting it, from this one on, and then those
    /// of setting it.
    GotAndSet { request: u32 },
}
