//! All faults of a text's names.

ghost use Rattle.std.specs.Prelude.{◌≡◌, ◌≤◌, ◌⊎◌, List, IfErr, IfOk};
ghost use Rattle.diagnostic_views.specs.AllNames.{AreFaultsIn, AreFirstOf};
ghost use Rattle.idl_parser.specs.declared.fault.ParseFault.TheVariants.{NoMemory};
ghost use Rattle.idl_tree.specs.declared.definitions.Definition.{Definition};
ghost use Rattle.idl_tree.specs.Pieces.{Spell};
ghost use Rattle.idl_tree.specs.DefinitionYields.{definitions_spelled};
ghost use Rattle.idl_tree.specs.DefinitionLevels.{levels_of};

use idl_lexer::Token;
use idl_parser::{ParseFault, parse};
use idl_tree::spec::Spec;
use scoped_names::{NameFaults, name_faults};
use std::alloc::{AllocError, Global};

/// What has names. A tree is one. (A borrow of a tree that a function has itself costs the borrow
/// checker more steps than it may take; one of a value of any type doesn't.)
trait HasNames {
    ghost use Rattle.std.specs.Prelude.{ℕ};
    ghost use Rattle.scoped_names.specs.declared.all_faults.NameFaults.{NameFaults};

    ghost tells: { Self → ℕ → NameFaults → Type 0 };

    fn faults(&self, alloc: Global, most: usize) -> Result<NameFaults, AllocError>
        ensures { IfOk result (tells self.now most) };
}

impl<'a> HasNames for Spec<'a> {
    ghost tells = { λ spec. AreFirstOf spec.definitions.items };

    fn faults(&self, alloc: Global, most: usize) -> Result<NameFaults, AllocError> {
        name_faults(alloc, self, most)
    }
}

/// The faults of what has names, which is let go of.
fn faults_of<T: HasNames + Drop>(
    alloc: Global,
    whole: T,
    most: usize,
) -> Result<NameFaults, AllocError>
    ensures { IfOk result (T.tells whole most) }
{
    whole.faults(alloc, most)
}

/// All faults of the names of a text with these tokens: the first of them, so many at most, and how
/// many there are.
///
/// # Errors
/// Why the tokens are no specification. Want of memory.
pub fn name_faults_in(
    alloc: Global,
    tokens: &[Token<'_>],
    most: usize,
) -> Result<NameFaults, ParseFault>
    ensures found { IfOk result (AreFaultsIn tokens.now most) }
    ensures refused { IfErr result (λ fault. (fault ≡ NoMemory) ⊎ ((definitions : List Definition)
        → Spell (definitions_spelled definitions) tokens.now → levels_of definitions ≤ 64 → ⊥)) }
{
    let spec = parse(alloc, tokens)?;
    Ok(faults_of(alloc, spec, most)?)
}
