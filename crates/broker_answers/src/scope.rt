//! Which answers a request wants.

ghost use Rattle.std.specs.Prelude.{◌≡◌};
ghost use Rattle.broker_answers.specs.Answering.{scope_by};
ghost use Rattle.broker_answers.specs.Replies.{sync_scope as scope_of};

/// Which answers a request wants.
#[derive(Clone, Copy, PartialEq, Eq)]
pub(crate) enum SyncScope {
    /// All of the answer.
    WithTarget,
    /// That the call was made, or that it can't be.
    WithServer,
    NoResponse,
}

/// What the response flags of a request ask for: its answers to its caller.
pub(crate) fn sync_scope(flags: u8) -> SyncScope
    ensures { scope_by result ≡ scope_of flags }
{
    match flags % 4 {
        3 => SyncScope::WithTarget,
        1 => SyncScope::WithServer,
        _ => SyncScope::NoResponse,
    }
}
