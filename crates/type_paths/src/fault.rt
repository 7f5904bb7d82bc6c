//! What may be wrong with the paths of a list of nodes.

use idl_tree::names::At;

/// A path leads from a node to one that it holds, and so on downwards; it passes no sequence.
#[derive(Clone, Copy, Debug, PartialEq, Eq)]
pub enum PathFault {
    /// A type holds itself: the member that closes the circle stands there.
    SelfHeld { at: At },
    /// A path has more than 64 nodes; the first type from which one leads stands there.
    LongPath { at: At },
}
