//! What a specification declares.

ghost use Rattle.std.specs.Prelude.{◌≡◌, if◌then◌else◌};
ghost use Rattle.name_table.specs.Entries.{plain as plain_meaning};
ghost use Rattle.name_table.specs.OwnNames.{keeps_its_name as keeps_name};
ghost use Rattle.name_table.specs.Features.{feature_meant, is_feature, no_token};

use crate::const_values::{ConstKind, Constant};
use idl_tree::kinds::EntryKind;

/// Whether the name of what has a scope isn't declared directly in it. A parameter may have the
/// name of its operation.
pub(crate) fn keeps_its_name(kind: EntryKind) -> bool
    ensures { result ≡ keeps_name kind }
{
    match kind {
        EntryKind::Operation => false,
        _ => true,
    }
}

/// Of what was declared at the token, the token from which it is found among operations and
/// attributes alone.
pub(crate) fn feature_token(kind: EntryKind, token: usize) -> usize
    ensures { result ≡ (if is_feature kind then token else no_token) }
{
    match kind {
        EntryKind::Operation | EntryKind::Attribute => token,
        _ => usize::MAX,
    }
}

/// What an identifier is declared as.
#[derive(Drop)]
pub struct Meaning {
    /// The token from which it is found.
    pub token: usize,
    pub kind: EntryKind,
    /// What a constant or an enumerator is worth.
    pub worth: Option<Constant>,
    /// The type of constants for which the name of a type stands in the end.
    pub stands_for: Option<ConstKind>,
}

impl Meaning {
    /// What is neither a constant nor the name of a constant's type.
    pub fn plain(token: usize, kind: EntryKind) -> Self
        ensures { result ≡ plain_meaning token kind }
    {
        Meaning {
            token,
            kind,
            worth: None,
            stands_for: None,
        }
    }

    /// The same of what is found among operations and attributes alone: of no other name is the
    /// token ever behind it.
    pub fn as_feature(&self) -> Self
        ensures { result ≡ feature_meant self.now }
    {
        Meaning::plain(feature_token(self.kind, self.token), self.kind)
    }
}

/// A base of an interface.
#[derive(Clone, Copy)]
pub struct Base {
    /// The number of the first token of the base's name.
    pub token: usize,
    /// The entry that the name finds.
    pub entry: usize,
}
