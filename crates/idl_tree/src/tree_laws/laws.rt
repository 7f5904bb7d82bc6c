//! Laws over trees and the tokens that they spell. The functions do nothing: each contract is the law.

ghost use Rattle.std.specs.Prelude.{◌≡◌, ◌≤◌, ℕ, List, [], Some};
ghost use Rattle.idl_lexer.specs.declared.token.Token.{Token};
ghost use Rattle.idl_tree.specs.declared.definitions.Definition.{Definition};
ghost use Rattle.idl_tree.specs.Pieces.{Spell, seen_from};
ghost use Rattle.idl_tree.specs.DefinitionYields.{definitions_spelled};
ghost use Rattle.idl_tree.specs.DefinitionLevels.{levels_of};
ghost use Rattle.idl_tree.specs.DefinitionShapes.{spec_shape};
ghost use Rattle.idl_tree.specs.DefinitionDescent.{definitions_way};

/// Some tokens are spelled by one specification at most. Where two spell them, these are the same but for where they
/// lie in memory.
pub fn spec_is_one()
    ensures { (tokens : List Token) (definitions others : List Definition)
        → Spell (definitions_spelled definitions) tokens → Spell (definitions_spelled others) tokens
        → spec_shape definitions ≡ spec_shape others }
{}

/// Who goes over the tokens of a specification and looks one token ahead, three where a structure or a union may be
/// declared ahead, gets to their end, where there is room for its levels.
pub fn spec_is_found()
    ensures { (room : ℕ) (tokens : List Token) (definitions : List Definition)
        → Spell (definitions_spelled definitions) tokens → levels_of definitions ≤ room
        → definitions_way room (seen_from 0 tokens) ≡ Some [] }
{}
