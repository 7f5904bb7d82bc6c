//! Whole specifications.

ghost use Rattle.std.specs.Prelude.{◌≤◌};
ghost use Rattle.idl_tree.specs.DefinitionYields.{AreSpelled};
ghost use Rattle.idl_tree.specs.DefinitionLevels.{levels_of};

use crate::definitions::Definition;

/// A whole specification.
pub struct Spec<'a> {
    pub definitions: Vec<Definition<'a>>,
    /// Some tokens, fewer than 2^64, are from the first to the last what the definitions spell.
    pub ghost spells: { ∥ AreSpelled definitions.items ∥₁ },
    /// At most 64 levels stand one inside another.
    pub ghost levels: { levels_of definitions.items ≤ 64 },
}

// A derived drop would be proved again in each crate that lets go of a tree.

impl<'a> Drop for Spec<'a> {
    fn drop(self) {
        let Spec { definitions: _ } = self;
    }
}
