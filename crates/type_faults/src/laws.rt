//! Laws over the definitions. The functions do nothing: each contract is the law.

ghost use Rattle.std.specs.Prelude.{◌≡◌, ℕ, List, [], ◌∷◌, Err, Ok};
ghost use Rattle.idl_lexer.specs.declared.token.Token.{Token};
ghost use Rattle.idl_tree.specs.declared.definitions.Definition.{Definition};
ghost use Rattle.idl_tree.specs.DefinitionYields.{definitions_spelled};
ghost use Rattle.idl_tree.specs.Pieces.{Spell};
ghost use Rattle.lowered_operations.specs.Definitions.{defined_by};
ghost use Rattle.lowered_operations.specs.Operations.{Defined};
ghost use Rattle.lowered_types.specs.declared.fault.BuildFault.{BuildFault};
ghost use Rattle.scoped_names.specs.FileNames.{AreNames, FileNames};
ghost use Rattle.type_faults.specs.AllFaults.{AreRefused};

use idl_tree::tree_laws::laws::spec_is_one;
use shape_laws::laws::{names_are_of_the_shape, types_are_of_the_shape};

/// The first part that is refused tells the first fault of the specification.
pub fn first_is_told()
    ensures { (tokens : List Token) (definitions : List Definition) (names : FileNames)
        (part : ℕ × BuildFault) (parts : List (ℕ × BuildFault))
        → Spell (definitions_spelled definitions) tokens → AreNames definitions names
        → AreRefused tokens [] (part ∷ parts) → defined_by names.entries definitions ≡ Err part.1 }
{
    spec_is_one();
    names_are_of_the_shape();
    types_are_of_the_shape()
}

/// No part is refused of a specification that is lowered.
pub fn nothing_is_told()
    ensures { (tokens : List Token) (definitions : List Definition) (names : FileNames)
        (parts : List (ℕ × BuildFault)) (lowered : Defined)
        → Spell (definitions_spelled definitions) tokens → AreNames definitions names
        → defined_by names.entries definitions ≡ Ok lowered → AreRefused tokens [] parts → parts ≡ [] }
{
    first_is_told()
}
