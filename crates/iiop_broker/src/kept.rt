//! What is kept of a connection.

use giop_messages::Run;

/// What is kept of a connection.
#[derive(Drop)]
pub(crate) enum Kept {
    /// The request whose fragments are coming, and the octets that aren't a whole message yet.
    Open { run: Option<Run>, rest: Vec<u8> },
    /// Nothing more is heard on it.
    Closed,
}
