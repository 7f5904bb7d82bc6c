//! Keys of targets.

ghost use Rattle.std.specs.Prelude.{◌≡◌, IfOk, option_map};
ghost use Rattle.type_graph.specs.Value.{Tree};
ghost use Rattle.giop_messages.specs.Headers.{IsKeyOf};
ghost use Rattle.giop.specs.inner.Targets.{TellsTarget};

use crate::reading::profile::profile_key;
use crate::reading::target::Target;
use giop_types::GiopTypes;
use std::alloc::{AllocError, Global};

/// Octets of one's own.
pub(crate) fn copy(alloc: Global, octets: &[u8]) -> Result<Vec<u8>, AllocError>
    ensures { IfOk result (λ made. made.items ≡ octets.now) }
{
    let mut made = Vec::new(alloc);
    made.extend_from_slice(octets)?;
    Ok(made)
}

/// The key that a target tells, if it tells one.
pub(crate) fn key_of(
    types: &GiopTypes,
    alloc: Global,
    target: Target<'_>,
) -> Result<Option<Vec<u8>>, AllocError>
    ensures { IfOk result (λ key. (tree : Tree)
        → TellsTarget tree target.entry → IsKeyOf tree (option_map (λ k. k.items) key)) }
{
    match target {
        Target::Key(key) => Ok(Some(copy(alloc, key)?)),
        Target::Profile(profile) => profile_key(types, alloc, profile.tag, profile.octets),
        Target::Nothing => Ok(None),
    }
}
